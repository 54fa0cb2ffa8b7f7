// Quorum rules: which sets of accounts suffice for a decision.
#![tactic(auto)]

pub mod examples;
pub mod majority;
pub mod quorum;
mod tests;
pub mod weighted;
