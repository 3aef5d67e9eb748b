//! Channels that hold datagrams themselves: a queue, a stack, and a trace that has a fate for each send.
#![tactic(auto)]

pub mod bottom;
mod datagram;
mod lanes;
pub mod queue;
pub mod refusal;
pub mod rule;
pub mod stack;
#[cfg(test)]
mod tests;
pub mod trace;
