// A library's contents by name, and its account settings by name. Zero is a name like any other.
#[derive(Clone, Copy, Debug, PartialEq, Eq)]
pub struct Value {
    pub root: u64,
    pub setup: u32,
}

impl Value {
    pub const NONE: Value = Value { root: 0, setup: 0 };
}
