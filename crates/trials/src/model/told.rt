use crate::model::ballot::Ballot;
use crate::model::line::Line;
use record::kind::Kind;
use record::value::Value;

// The value that a log accepted last, and under which ballot.
#[derive(Clone, Copy)]
pub struct Accepted {
    pub ballot: Ballot,
    pub value: Value,
}

// What a log says about one version, up to some place: with the highest attempt in its records, and
// whether it accepted one ballot.
#[derive(Clone, Copy)]
pub struct Told {
    pub promised: Option<Ballot>,
    pub accepted: Option<Accepted>,
    // 0 for none, as the devices keep it
    pub attempt: u16,
    pub own: bool,
}

impl Told {
    pub const NONE: Told = Told {
        promised: None,
        accepted: None,
        attempt: 0,
        own: false,
    };

    // After one more record of the version.
    pub fn and(self, line: &Line, own: Option<Ballot>) -> Told {
        let ballot = line.ballot;
        let told = Told {
            attempt: self.attempt.max(ballot.attempt),
            ..self
        };
        match line.kind {
            Kind::Prepare => Told {
                promised: told.promised.max(Some(ballot)),
                ..told
            },
            Kind::Accept if told.promised > Some(ballot) => told,
            Kind::Accept => Told {
                accepted: told.after(Accepted {
                    ballot,
                    value: line.value,
                }),
                own: told.own || own == Some(ballot),
                ..told
            },
        }
    }

    // A higher ballot than the next one stays.
    fn after(self, next: Accepted) -> Option<Accepted> {
        self.accepted
            .filter(|accepted| accepted.ballot > next.ballot)
            .or(Some(next))
    }

    pub fn has_accepted(&self, ballot: Ballot) -> bool {
        self.accepted
            .is_some_and(|accepted| accepted.ballot == ballot)
    }
}
