use protocol::version::Version;
use record::value::Value;

// What became of a proposal.
#[derive(Clone, Copy, PartialEq, Eq)]
pub enum Fate {
    Open,
    // its device was started again
    Forgotten,
    Answered(Answered),
}

// When a proposal was answered, and the version that its device then held.
#[derive(Clone, Copy, PartialEq, Eq)]
pub struct Answered {
    pub at: u64,
    pub version: Version,
}

// A proposal of a run.
#[derive(Clone, Copy)]
pub struct Proposal {
    pub device: u32,
    pub base: u32,
    pub value: Value,
    pub opened: u64,
    pub fate: Fate,
}

impl Proposal {
    pub fn is_open_at(&self, device: u32) -> bool {
        self.device == device && self.fate == Fate::Open
    }

    pub fn answered(&self) -> Option<Answered> {
        match self.fate {
            Fate::Answered(answered) => Some(answered),
            Fate::Open | Fate::Forgotten => None,
        }
    }

    // Whether it asks for just this version.
    pub fn asks_for(&self, version: Version) -> bool {
        self.base.saturating_add(1) == u32::from(version.number) && self.value == version.value
    }

    pub fn was_answered_before(&self, other: &Proposal) -> bool {
        self.answered()
            .is_some_and(|answered| answered.at < other.opened)
    }

    // Whether the chain gives it what its device held, if it was answered; `chain` is as the proposal leaves it.
    pub fn agrees(&self, chain: &[Value]) -> bool {
        self.answered().is_none_or(|answered| {
            u32::from(answered.version.number) == self.base.saturating_add(1)
                && chain.get(self.base as usize) == Some(&answered.version.value)
        })
    }
}
