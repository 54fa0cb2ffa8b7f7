// An account kind and a quorum rule as somebody else would write them years from now, under the unchanged group.
#![tactic(auto)]

pub mod chief;
pub mod runs;
pub mod shelf;
