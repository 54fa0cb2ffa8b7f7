ghost use Rattle.std.specs.Prelude.{ℕ, List, string_bytes};

use std::marker::Model;

// A text that grows at its end: contracts see its bytes.
#[derive(Drop)]
pub struct Page {
    pub(crate) text: String,
}

impl Model for Page {
    ghost Value = { List ℕ };

    ghost view = { λ page. string_bytes page.text };
}
