use journal::view::View;

// What a device notes while it reads an account: what the records say about its next version, whether its
// own ACCEPT was accepted there, and the highest attempt in a record of that version.
#[derive(Clone, Copy, Debug, PartialEq, Eq)]
pub struct Notes {
    pub view: View,
    pub own: bool,
    pub seen: u16,
}
