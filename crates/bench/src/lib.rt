// Groups as the repair bench runs them: three accounts of 64 records, a byte log, a versioned file and a byte log.
#![tactic(auto)]

pub mod runs;
