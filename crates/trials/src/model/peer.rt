use crate::model::ballot::Ballot;
use crate::model::contact::Contact;
use crate::model::line::NOTHING;
use crate::model::told::Told;
use protocol::phase::Phase;
use protocol::version::Version;
use record::value::Value;

// A device that has joined. All that it knows of a log is found by reading the log again, up to its place.
// Values stand beside the phase, and not in it: what was carried outlives a new attempt.
#[derive(Clone, Copy)]
pub struct Peer {
    pub device: u32,
    pub attempt: u16,
    pub holds: Version,
    pub phase: Phase,
    pub proposed: Value,
    pub carried: Value,
    pub contacts: [Contact; 7],
}

impl Peer {
    pub fn new(device: u32) -> Peer {
        Peer {
            device,
            attempt: 0,
            holds: Version {
                number: 0,
                value: NOTHING,
            },
            phase: Phase::Idle,
            proposed: NOTHING,
            carried: NOTHING,
            contacts: [Contact::NEW; 7],
        }
    }

    pub fn is_open(&self) -> bool {
        self.phase != Phase::Idle
    }

    pub fn has_adopted(&self) -> bool {
        self.phase == Phase::Accepting && self.carried != self.proposed
    }

    pub fn ballot(&self) -> Ballot {
        Ballot {
            attempt: self.attempt,
            device: self.device,
        }
    }

    // The version that it would decide.
    pub fn next_version(&self) -> u16 {
        self.holds.number.saturating_add(1)
    }

    pub fn contact(&self, k: usize) -> Contact {
        self.contacts.get(k).copied().unwrap_or(Contact::NEW)
    }

    // With other contact to one account.
    pub fn with(self, account: u32, contact: Contact) -> Peer {
        let mut peer = self;
        if let Some(old) = peer.contacts.get_mut(account as usize) {
            *old = contact;
        }
        peer
    }

    // The next version is decided.
    pub fn deciding(self, value: Value) -> Peer {
        self.holding(Version {
            number: self.next_version(),
            value,
        })
    }

    // As after joining, but for the attempt, the links and the version that it holds.
    pub fn holding(self, holds: Version) -> Peer {
        Peer {
            attempt: self.attempt,
            holds,
            contacts: self.contacts.map(Contact::unread),
            ..Peer::new(self.device)
        }
    }

    // Under a new attempt for a value.
    pub fn trying(self, attempt: u16, value: Value) -> Peer {
        Peer {
            attempt,
            proposed: value,
            phase: Phase::Preparing,
            contacts: self.contacts.map(Contact::unsent),
            ..self
        }
    }

    // Carries the value of the highest accepted ballot, or else what it proposed.
    pub fn accepting(self, told: &[Told; 7]) -> Peer {
        let highest = told
            .iter()
            .filter_map(|one| one.accepted)
            .reduce(|best, next| if next.ballot > best.ballot {
                next
            } else {
                best
            });
        Peer {
            carried: highest.map_or(self.proposed, |accepted| accepted.value),
            phase: Phase::Accepting,
            contacts: self.contacts.map(Contact::unsent),
            ..self
        }
    }
}
