// Storage accounts: what any kind of account means, and several of them side by side.
#![tactic(auto)]

pub mod account;
pub mod accounts;
pub mod end;
pub mod pair;
