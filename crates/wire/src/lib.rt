//! The messages about Child SAs, and their octets.
#![tactic(auto)]

pub mod decode;
pub mod encode;
pub mod header;
pub mod lines;
pub mod message;
pub mod payload;
mod table;
mod text;
