//! What a channel between two ends is, and the marker, a layer over any channel.
#![tactic(auto)]

pub mod channel;
pub mod loopback;
pub mod marker;
pub mod sent;
