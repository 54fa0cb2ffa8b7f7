// What the log of one account holds, as text for a person.
#![tactic(auto)]

pub mod lines;
mod page;
pub mod report;
