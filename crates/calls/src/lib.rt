//! The calls of two ends, what they answer, and the number of each answer.
#![tactic(auto)]

pub mod answers;
pub mod making;
pub mod moves;
pub mod refusals;
