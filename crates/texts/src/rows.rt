//! Rows of a book, and what is found of them.
ghost use Rattle.std.specs.Prelude.{◌≡◌, Some};
ghost use Rattle.nonce.specs.Nonces.{as_nonce};
ghost use Rattle.book.specs.Rows.{nr_octets};
ghost use Rattle.texts.specs.Told.{nonce_text, row_text, read_text, finding_text};

use crate::digits::Hex;
use crate::told::{Refused, Told};
use book::BookRefusal;
use book::audit::Alone;
use book::row::{Row, RowState, Spis};
use nonce::Nonce;
use nonce::side::Side;
use std::fmt;

impl fmt::Display for Told<Row> {
    ghost output = { λ t. Some (row_text t.0) };

    fn fmt<W: fmt::Write>(&self, f: &mut fmt::Formatter<W>) -> fmt::Result {
        let row = &self.0;
        let spis = Told(Spis {
            own: row.own,
            peer: row.peer,
        });
        let standing = Told((row.state, row.began));
        let parent = Told(row.parent);
        let ni = Told(row.ni.nonce());
        let nr = Told(responder_nonce(row));
        write!(f, "row {spis} {standing} parent {parent} ni {ni} nr {nr}")
    }
}

/// A nonce of a row, where there is one.
impl fmt::Display for Told<Option<Nonce>> {
    ghost output = { λ t. Some (nonce_text t.0) };

    fn fmt<W: fmt::Write>(&self, f: &mut fmt::Formatter<W>) -> fmt::Result {
        match &self.0 {
            Some(nonce) => Hex(nonce.as_slice()).fmt(f),
            None => write!(f, "-"),
        }
    }
}

/// The responder's nonce of a row: that of an Opening row counts as none.
fn responder_nonce(row: &Row) -> Option<Nonce>
    ensures { result ≡ as_nonce (nr_octets row.now) }
{
    match row.state {
        RowState::Opening => None,
        _ => row.nr.nonce(),
    }
}

/// The answer to a read of a book.
impl fmt::Display for Told<Result<Row, BookRefusal>> {
    ghost output = { λ t. Some (read_text t.0) };

    fn fmt<W: fmt::Write>(&self, f: &mut fmt::Formatter<W>) -> fmt::Result {
        match self.0 {
            Ok(row) => Told(row).fmt(f),
            Err(refusal) => Refused(refusal).fmt(f),
        }
    }
}

/// What an audit finds.
impl fmt::Display for Told<Option<Alone>> {
    ghost output = { λ t. Some (finding_text t.0) };

    fn fmt<W: fmt::Write>(&self, f: &mut fmt::Formatter<W>) -> fmt::Result {
        let Some(Alone { side, row }) = self.0 else {
            return write!(f, "all rows have their mirror");
        };
        let row = Told(row);
        match side {
            Side::A => write!(f, "no mirror in B: {row}"),
            Side::B => write!(f, "no mirror in A: {row}"),
        }
    }
}
