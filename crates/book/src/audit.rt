//! The audit of two books: whether each row of either has its mirror in the other.
ghost use Rattle.std.specs.Prelude.{◌≡◌};
ghost use Rattle.std.specs.Iterator.{YieldsFirst, item_count};
ghost use Rattle.book.specs.Audits.{has_mirror, alone, audited, AllMirrored};
ghost use Rattle.book.specs.Shelves.{after};

use crate::Book;
use crate::row::Row;
use nonce::side::Side;

/// A row that has no mirror, and which of the two books it is in: A is the first of an audit, B the second.
#[derive(Clone, Copy)]
pub struct Alone {
    pub side: Side,
    pub row: Row,
}

/// Whether a row has its mirror in a book: the row there whose own SPI is this one's peer SPI. An Opening row has none.
fn has_mirror<B: Book>(row: &Row, book: &B) -> bool
    ensures { result ≡ has_mirror (B.Book.shelf book.now).rows row.now }
{
    !row.state.is_opening() && book.read(row.peer).is_ok_and(|other| row.mirrors(&other))
}

/// The rows of a book by rising own SPI, from above the last own SPI on.
#[derive(Drop)]
struct Rows<'a, B> {
    book: &'a B,
    last: u32,
}

impl<'a, B: Book> Iterator for Rows<'a, B> {
    type Item = Row;

    ghost next_gives = { YieldsFirst (λ s. after (B.Book.shelf s.book.now).rows s.last) };

    ghost remaining = { item_count (λ s. after (B.Book.shelf s.book.now).rows s.last) };

    fn next(&mut self) -> Option<Row> {
        let own = self.book.next(self.last)?;
        self.last = own;
        self.book.read(own).ok()
    }
}

/// The first row of a book, by rising own SPI, that has no mirror in another.
fn first_alone<P: Book, Q: Book>(book: &P, other: &Q) -> Option<Row>
    ensures { result ≡ alone (P.Book.shelf book.now).rows (Q.Book.shelf other.now).rows }
{
    Rows { book, last: 0 }.find(|row| !has_mirror(row, other))
}

/// The first row of either book that has no mirror in the other: of A's by rising own SPI, then of B's. Nothing where each
/// row of either has its mirror.
pub fn audit<P: Book, Q: Book>(a: &P, b: &Q) -> Option<Alone>
    ensures value { result ≡ audited (P.Book.shelf a.now) (Q.Book.shelf b.now) }
    ensures mirrored { result ≡ None → AllMirrored (P.Book.shelf a.now) (Q.Book.shelf b.now) }
{
    first_alone(a, b)
        .map(|row| Alone { side: Side::A, row })
        .or_else(|| first_alone(b, a).map(|row| Alone { side: Side::B, row }))
}
