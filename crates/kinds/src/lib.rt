// Accounts of different kinds side by side, under code that knows of no kind.
#![tactic(auto)]

pub mod lending;
pub mod relay;
mod tests;
