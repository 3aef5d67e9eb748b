//! Two ends of one making over one channel.
#![tactic(auto)]

use book::Book;
use endpoint::Endpoint;

pub mod making;
pub mod parts;
mod run;

/// Two ends that only talk to each other, and the channel between them, which nobody else uses.
// the channel first, as in `Unmade`: what stands at one place in an `Ok` and in an `Err` is moved as a whole
#[derive(Drop)]
pub struct Pair<P: Book, Q: Book, C> {
    channel: C,
    a: Endpoint<P>,
    b: Endpoint<Q>,
}
