//! What C may call: a message read from octets, and the loser of a collision. What C owes is in c/childsa.h.
#![tactic(auto)]

pub mod decode;
pub mod loser;
mod padded;
pub mod record;
