//! The order of nonces, and which of two colliding SAs loses.
use crate::Nonce;

pub mod compare;

/// The nonces of one exchange that makes an SA.
#[derive(Clone, Copy)]
pub struct Exchanged {
    pub initiator: Nonce,
    pub responder: Nonce,
}

/// Which of the four nonces of two exchanges, one begun by A and one by B, is the lowest.
#[derive(Clone, Copy, PartialEq, Eq, Debug)]
pub enum Lowest {
    InitiatorOfA,
    ResponderOfA,
    InitiatorOfB,
    ResponderOfB,
}

/// A nonce with its name.
#[derive(Clone, Copy)]
struct Named<'a> {
    name: Lowest,
    nonce: &'a Nonce,
}
