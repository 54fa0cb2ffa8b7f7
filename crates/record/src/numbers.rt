// A record's fields as bare numbers, of which any may be out of range.
#[derive(Clone, Copy, Debug, PartialEq, Eq)]
pub struct Numbers {
    pub kind: u64,
    pub attempt: u64,
    pub device: u64,
    pub version: u64,
    pub root: u128,
    pub setup: u64,
}
