//! What the benchmark calls (bench/): the library's functions, those of some nanoseconds in loops. Each hands back a number made
//! of all that was answered, and its contract says which; the same stands there over the functions of the independent program,
//! whose numbers have to be these.
#![tactic(auto)]

mod books;
pub mod decoding;
pub mod encoding;
pub mod filed;
mod mixed;
mod moves;
pub mod nonces;
mod owned;
mod pairs;
pub mod played;
