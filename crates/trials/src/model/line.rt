use crate::model::ballot::Ballot;
use record::kind::Kind;
use record::record::Record;
use record::value::Value;

pub const NOTHING: Value = Value { root: 0, setup: 0 };

// One record of a log: not the library's, whose ranges the model would have to prove.
#[derive(Clone, Copy, PartialEq, Eq)]
pub struct Line {
    pub kind: Kind,
    pub ballot: Ballot,
    pub version: u16,
    pub value: Value,
}

impl From<Record> for Line {
    fn from(record: Record) -> Line {
        Line {
            kind: record.kind,
            ballot: Ballot {
                attempt: record.attempt,
                device: u32::from(record.device),
            },
            version: record.version,
            value: record.value,
        }
    }
}
