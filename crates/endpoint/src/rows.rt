//! The rows that an end files, and how it changes its book.
ghost use Rattle.std.specs.Prelude.{◌≡◌, ◌<◌, ◌^◌, true, IfSome};
ghost use Rattle.nonce.specs.Nonces.{nonce_long};
ghost use Rattle.book.specs.Rows.{kept_octets};
ghost use Rattle.book.specs.Shelves.{lookup};
ghost use Rattle.law.specs.Rows.{opening_row, fresh_row, made_row, in_state, rewritten, without};
ghost use Rattle.endpoint.specs.Changes.{with_shelf, filing};

use crate::Endpoint;
use book::Book;
use book::row::{Beginner, KeptNonce, Row, RowState, Spis};
use nonce::Nonce;

/// Requested here, with this nonce.
pub(crate) fn opening_row(own: u32, parent: Spis, ni: &Nonce) -> Row
    ensures value { result ≡ opening_row own parent ni.now }
    ensures long { nonce_long (kept_octets result.ni) ≡ true }
{
    Row {
        own,
        peer: 0,
        state: RowState::Opening,
        began: Beginner::ThisEnd,
        parent,
        ni: KeptNonce::from(ni),
        nr: KeptNonce {
            octets: [0; 32],
            len: 0,
        },
    }
}

/// Made here for the peer's request.
pub(crate) fn fresh_row(own: u32, peer: u32, parent: Spis, ni: &Nonce, nr: &Nonce) -> Row
    ensures value { result ≡ fresh_row own peer parent ni.now nr.now }
    ensures long { nonce_long (kept_octets result.ni) ≡ true }
{
    Row {
        own,
        peer,
        state: RowState::Fresh,
        began: Beginner::Peer,
        parent,
        ni: KeptNonce::from(ni),
        nr: KeptNonce::from(nr),
    }
}

/// An Opening row once the peer has made the SA, under its SPI and with its nonce.
pub(crate) fn made_row(row: Row, peer: u32, nr: &Nonce) -> Row
    ensures { result ≡ made_row peer nr.now row }
{
    Row {
        peer,
        state: RowState::Standing,
        nr: KeptNonce::from(nr),
        ..row
    }
}

/// The row in another state.
pub(crate) fn in_state(row: Row, state: RowState) -> Row
    ensures { result ≡ in_state state row }
{
    Row { state, ..row }
}

impl<B: Book> Endpoint<B> {
    /// The row of an own SPI.
    #[tactic(auto, using(crate::proofs::Nonces::nonces_lookup))]
    pub(crate) fn row(&self, own: u32) -> Option<Row>
        ensures value { result ≡ lookup self.now.shelf.rows own }
        ensures long { IfSome result (λ r. nonce_long (kept_octets r.ni) ≡ true) }
    {
        self.book.read(own).ok()
    }

    /// Adds a row under the next own SPI, which is used up.
    #[tactic(auto, using(crate::proofs::Nonces::nonces_put))]
    pub(crate) fn file(&mut self, row: Row)
        requires left { self.old.spi < 2 ^ 32 }
        requires long { nonce_long (kept_octets row.ni) ≡ true }
        ensures { self.new ≡ filing self.old row }
    {
        let _put = self.book.put(row);
        self.spi += 1;
    }

    /// Puts a row in the place of the one of its own SPI.
    #[tactic(auto, using(crate::proofs::Nonces::nonces_write))]
    pub(crate) fn rewrite(&mut self, row: Row)
        requires { nonce_long (kept_octets row.ni) ≡ true }
        ensures { self.new ≡ with_shelf self.old (rewritten self.old.shelf row) }
    {
        let _written = self.book.write(row);
    }

    /// Drops the row of an own SPI, if there is one. This is the one place where an end drops a row.
    #[tactic(auto, using(crate::proofs::Nonces::nonces_without))]
    pub(crate) fn discard(&mut self, own: u32)
        ensures { self.new ≡ with_shelf self.old (without self.old.shelf own) }
    {
        let _removed = self.book.remove(own);
    }
}
