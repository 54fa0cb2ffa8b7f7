// What a log of records says about a version.
#![tactic(auto)]

pub mod area;
pub mod view;
pub mod worked;
