ghost use Rattle.std.specs.Prelude.{◌≡◌, ◌≤◌, length};

use record::record::Record;

mod calls;

// Up to four records by value, with no memory but its own, and so with a count beside an array.
#[derive(Clone, Copy)]
pub struct Shelf {
    rows: [Record; 4],
    used: usize,
    ghost within: { used ≤ 4 },
    ghost four: { length rows ≡ 4 },
}
