use journal::view::View;

// What a device keeps about one account: how far it has read there, what that said about its next version,
// whether it has sent its request there, and whether it has read there that its own ACCEPT was accepted.
#[derive(Clone, Copy, Debug, PartialEq, Eq)]
pub struct Slot {
    pub place: usize,
    pub view: View,
    pub sent: bool,
    pub own: bool,
}

impl Slot {
    // Nothing was read, sent or seen accepted.
    pub const FRESH: Slot = Slot {
        place: 0,
        view: View::UNREAD,
        sent: false,
        own: false,
    };
}
