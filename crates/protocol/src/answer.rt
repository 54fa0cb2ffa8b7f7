use crate::outcome::Outcome;
use crate::version::Version;
use record::refusal::Refusal;

// What a call is answered. One flat enum and no Result of one: a promise then says of a call just `Attempt a` or `Taken n o`.
#[derive(Clone, Copy, Debug, PartialEq, Eq)]
pub enum Answer {
    Refused(Refusal),
    // join, link and restart
    Done,
    // propose and again: the attempt that is used from now on
    Attempt(u16),
    // send: the account's new length
    Length(usize),
    // read: how many records were read, and what the device concludes
    Taken(usize, Outcome),
    // known
    Holds(Version),
}
