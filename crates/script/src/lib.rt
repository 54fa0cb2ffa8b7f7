// The script: lines of text to calls, and answers to lines of text.
#![tactic(auto)]

pub mod answers;
pub mod command;
pub mod cut;
pub mod lines;
mod numeral;
pub mod respond;
pub mod token;
