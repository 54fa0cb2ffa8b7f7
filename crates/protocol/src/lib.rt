// The protocol: its plain types, the definitions of every call, and the laws over whole runs.
#![tactic(auto)]

pub mod answer;
pub mod call;
pub mod link;
pub mod notes;
pub mod outcome;
pub mod phase;
pub mod promises;
pub mod slot;
pub mod version;
pub mod worked;
