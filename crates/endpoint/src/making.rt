//! How an end is made.
ghost use Rattle.std.specs.Prelude.{◌≡◌, ◌<◌, ◌^◌, IfErr};
ghost use Rattle.law.specs.Ends.{made, making_refused};
ghost use Rattle.std.specs.Result.{result_map_both};

use crate::Endpoint;
use book::Book;
use calls::making::Making;
use calls::refusals::MakingRefusal;
use nonce::side::Side;
use nonce::spi::LOWEST_SPI;
use wire::encode::Octets;

/// No end was made, for this reason; its book is given back.
#[derive(Drop)]
pub struct Unmade<B> {
    pub book: B,
    pub refusal: MakingRefusal,
}

/// Why an end is not made over this book.
fn refusal_of<B: Book>(making: &Making, book: &B) -> Option<MakingRefusal>
    ensures { result ≡ making_refused making.now (B.Book.shelf book.now) }
{
    if book.len() != 0 {
        return Some(MakingRefusal::BookNotEmpty);
    }
    if making.a.spi < LOWEST_SPI || making.b.spi < LOWEST_SPI {
        return Some(MakingRefusal::ReservedSpi);
    }
    None
}

/// A number with room for one more: `2^32` says that they are spent.
fn wide(number: u32) -> u64
    ensures same { result ≡ number }
    ensures left { result < 2 ^ 32 }
{
    u64::from(number)
}

impl<B: Book> Endpoint<B> {
    /// The end of one side, with nothing in its book.
    pub fn new(making: Making, side: Side, book: B) -> Result<Endpoint<B>, Unmade<B>>
        ensures value { result_map_both (λ e. e) (λ u. u.refusal) result ≡ made making side (B.Book.shelf book) }
        ensures back { IfErr result (λ u. u.book ≡ book) }
    {
        if let Some(refusal) = refusal_of(&making, &book) {
            return Err(Unmade { refusal, book });
        }
        let (own, peer) = match side {
            Side::A => (making.a, making.b),
            Side::B => (making.b, making.a),
        };
        Ok(Endpoint {
            side,
            initiator: making.initiator,
            responder: making.responder,
            next: wide(own.id),
            expected: wide(peer.id),
            spi: wide(own.spi),
            book,
            outstanding: None,
            request: Octets::new(),
            collision: None,
            reply: None,
        })
    }

    /// The book, given back; the end is used up.
    pub fn into_book(self) -> B
        ensures { B.Book.shelf result ≡ self.shelf }
    {
        let Self { book, .. } = self;
        book
    }
}
