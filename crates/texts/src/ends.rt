//! What an end is.
ghost use Rattle.std.specs.Prelude.{Some};
ghost use Rattle.texts.specs.Ends.{left_text, doing_text, end_text};

use crate::told::Told;
use book::Book;
use endpoint::Endpoint;
use endpoint::outstanding::Outstanding;
use law::kinds::Kind;
use std::fmt;

/// A number that rises, or that it is spent.
#[derive(Clone, Copy)]
struct Left(Option<u32>);

impl fmt::Display for Left {
    ghost output = { λ l. Some (left_text l.0) };

    fn fmt<W: fmt::Write>(&self, f: &mut fmt::Formatter<W>) -> fmt::Result {
        match self.0 {
            Some(number) => write!(f, "{number}"),
            None => write!(f, "spent"),
        }
    }
}

/// The numbers of an end, and its outstanding request.
impl<B: Book> fmt::Display for Told<&Endpoint<B>> {
    ghost output = { λ t. Some (end_text t.0.now) };

    fn fmt<W: fmt::Write>(&self, f: &mut fmt::Formatter<W>) -> fmt::Result {
        let end = self.0;
        let next = Left(end.next_id());
        let expected = Left(end.expected_id());
        let spi = Left(end.next_spi());
        let doing = Doing {
            outstanding: end.outstanding(),
            collided: end.has_collision(),
        };
        write!(f, "next {next} expected {expected} spi {spi} {doing}")
    }
}

/// The outstanding request of an end, and whether it has recorded a collision.
#[derive(Clone, Copy)]
struct Doing {
    outstanding: Option<Outstanding>,
    collided: bool,
}

impl fmt::Display for Doing {
    ghost output = { λ d. Some (doing_text d.outstanding d.collided) };

    fn fmt<W: fmt::Write>(&self, f: &mut fmt::Formatter<W>) -> fmt::Result {
        let Some(Outstanding { id, kind, own, old }) = self.outstanding else {
            return write!(f, "quiet");
        };
        match kind {
            Kind::Create => write!(f, "create id {id} own {own}"),
            Kind::Rekey if self.collided => {
                write!(f, "rekey id {id} own {own} old {old} collision")
            }
            Kind::Rekey => write!(f, "rekey id {id} own {own} old {old}"),
            Kind::Delete => write!(f, "delete id {id} own {own}"),
            Kind::Check => write!(f, "check id {id}"),
        }
    }
}
