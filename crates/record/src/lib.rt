// The record format: sixteen bytes, the record that they stand for, and every reason to refuse.
#![tactic(auto)]

pub mod codec;
pub mod kind;
pub mod numbers;
pub mod record;
pub mod refusal;
pub mod value;
