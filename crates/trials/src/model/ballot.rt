// One attempt of one device. Ballots are ordered by their attempts, and where these are equal by their devices.
#[derive(Clone, Copy, PartialEq, Eq, PartialOrd, Ord)]
pub struct Ballot {
    pub attempt: u16,
    pub device: u32,
}

impl Ballot {
    // The number of a ballot, in which there is room for sixteen devices.
    pub fn number(self) -> u32 {
        (u32::from(self.attempt) * 16).saturating_add(self.device)
    }
}
