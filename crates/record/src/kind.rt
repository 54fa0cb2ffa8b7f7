ghost use Rattle.std.specs.Prelude.{◌≡◌, Some, codes};
ghost use Rattle.record.specs.Codes.{kind_number, kind_name};
ghost use Rattle.record.specs.Layout.{kind_from};

use super::refusal::Refusal;
use std::fmt;

// What a record asks of the log that holds it. The discriminant is its number in the format.
#[derive(Clone, Copy, Debug, PartialEq, Eq)]
pub enum Kind {
    Prepare = 1,
    Accept = 2,
}

impl From<Kind> for u8 {
    ghost from_gives = { λ kind n. n ≡ kind_number kind };

    fn from(kind: Kind) -> u8 {
        kind as u8
    }
}

impl TryFrom<u64> for Kind {
    type Error = Refusal;

    ghost try_from_gives = { λ n r. r ≡ kind_from n };

    fn try_from(number: u64) -> Result<Kind, Refusal> {
        match number {
            1 => Ok(Kind::Prepare),
            2 => Ok(Kind::Accept),
            _ => Err(Refusal::UnknownKind),
        }
    }
}

impl fmt::Display for Kind {
    ghost output = { λ kind. Some (kind_name kind) };

    fn fmt<W: fmt::Write>(&self, f: &mut fmt::Formatter<W>) -> fmt::Result {
        f.write_str(match self {
            Kind::Prepare => "PREPARE",
            Kind::Accept => "ACCEPT",
        })
    }
}
