//! One end of an IKE SA, which makes, rekeys and deletes Child SAs over any channel and files them in any book.
#![tactic(auto)]

use book::Book;
use nonce::order::Exchanged;
use nonce::side::Side;
use outstanding::Outstanding;
use std::marker::Model;
use wire::encode::Octets;

mod asks;
mod calm;
mod checks;
mod delivery;
pub mod making;
pub mod outstanding;
mod owned;
mod questions;
mod reaction;
mod requests;
mod responses;
mod rows;
mod sending;

/// An end, with its book.
// the book first, as in `Unmade`: what stands at one place in an `Ok` and in an `Err` is moved as a whole
#[derive(Drop)]
pub struct Endpoint<B: Book> {
    book: B,
    side: Side,
    /// The IKE SPI of A.
    initiator: u64,
    /// The IKE SPI of B.
    responder: u64,
    /// The next own Message ID; 2^32 where they are spent.
    next: u64,
    /// The Message ID of the peer's next request; 2^32 where they are spent.
    expected: u64,
    /// The next own SPI; 2^32 where they are spent.
    spi: u64,
    outstanding: Option<Outstanding>,
    /// The octets of the outstanding request.
    request: Octets,
    /// The nonces of the peer's exchange that rekeys the same SA as the outstanding request.
    collision: Option<Exchanged>,
    reply: Option<Octets>,
}

impl<B: Book> Model for Endpoint<B> {
    ghost use Rattle.law.specs.Ends.{End};

    ghost Value = { End };

    ghost use Rattle.endpoint.specs.Views.{end_of, Kept};

    ghost view = { end_of B.Book.shelf };

    ghost invariant = { Kept B.Book.shelf };
}
