// The protocol as a program: devices, the group that they form over any accounts and any quorum rule, and whole runs.
#![tactic(auto)]

mod account_number;
pub mod calls;
mod changes;
mod conclude;
pub mod device;
mod device_number;
pub mod found;
pub mod group;
mod numbers;
mod reading;
pub mod round;
pub mod table;
mod tally;
