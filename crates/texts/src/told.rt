//! What is printed of values of other crates' types.
ghost use Rattle.std.specs.Prelude.{Some};
ghost use Rattle.texts.specs.Told.{refused_text, answer_text, spi_text, spis_text, state_text, sent_text};

use book::BookRefusal;
use book::row::{Beginner, RowState, Spis};
use channel::sent::Sent;
use numbered::Numbered;
use std::fmt;

/// A value in the words that are printed of it.
#[derive(Clone, Copy, Debug)]
pub struct Told<T>(pub T);

impl fmt::Display for Told<Sent> {
    ghost output = { λ t. Some (sent_text t.0) };

    fn fmt<W: fmt::Write>(&self, f: &mut fmt::Formatter<W>) -> fmt::Result {
        match self.0 {
            Sent::Taken => write!(f, "taken"),
            Sent::NotTaken => write!(f, "not taken"),
        }
    }
}

/// A refusal of any layer, by its number.
#[derive(Clone, Copy)]
pub struct Refused<R>(pub R);

impl<R: Numbered> fmt::Display for Refused<R> {
    ghost output = { λ t. Some (refused_text (R.Numbered.number_of t.0)) };

    fn fmt<W: fmt::Write>(&self, f: &mut fmt::Formatter<W>) -> fmt::Result {
        let number = self.0.number();
        write!(f, "refused {number}")
    }
}

/// The answer to a change of a book.
// its `Err` arm stands at a read of a book too: `()` has no text of its own that one form of both could take
impl fmt::Display for Told<Result<(), BookRefusal>> {
    ghost output = { λ t. Some (answer_text t.0) };

    fn fmt<W: fmt::Write>(&self, f: &mut fmt::Formatter<W>) -> fmt::Result {
        match self.0 {
            Ok(()) => write!(f, "done"),
            Err(refusal) => Refused(refusal).fmt(f),
        }
    }
}

/// An own SPI, where there is one.
impl fmt::Display for Told<Option<u32>> {
    ghost output = { λ t. Some (spi_text t.0) };

    fn fmt<W: fmt::Write>(&self, f: &mut fmt::Formatter<W>) -> fmt::Result {
        match self.0 {
            Some(own) => write!(f, "{own}"),
            None => write!(f, "none"),
        }
    }
}

impl fmt::Display for Told<Spis> {
    ghost output = { λ t. Some (spis_text t.0.own t.0.peer) };

    fn fmt<W: fmt::Write>(&self, f: &mut fmt::Formatter<W>) -> fmt::Result {
        let Spis { own, peer } = self.0;
        write!(f, "{own} {peer}")
    }
}

/// The state of a row and who began, as numbers.
impl fmt::Display for Told<(RowState, Beginner)> {
    ghost output = { λ t. Some (state_text t.0.0 t.0.1) };

    fn fmt<W: fmt::Write>(&self, f: &mut fmt::Formatter<W>) -> fmt::Result {
        let state = self.0.0.number();
        let began = self.0.1.number();
        write!(f, "{state} {began}")
    }
}
