// Where a device is with its proposal: none is open, its ballot is to be promised, or its value is to be accepted.
#[derive(Clone, Copy, Debug, PartialEq, Eq)]
pub enum Phase {
    Idle,
    Preparing,
    Accepting,
}
