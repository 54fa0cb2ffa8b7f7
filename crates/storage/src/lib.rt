// Two kinds of accounts, each over memory that it is lent.
#![tactic(auto)]

pub mod byte_log;
pub mod row;
pub mod sizes;
pub mod versioned_file;
