//! The texts that are printed: of octets, rows, answers, messages and ends, and the ladder of the messages between two ends.
#![tactic(auto)]

mod answers;
pub mod digits;
mod ends;
pub mod ladder;
mod messages;
mod rows;
pub mod told;
