//! How an ordered book is a book.
ghost use Rattle.std.specs.Prelude.{◌≡◌, ◌<◌, Bool, length, IfSome, IfOk};
ghost use Rattle.std.specs.Fn.{FnReturnsAt};
ghost use Rattle.std.specs.List.Sorted.{IsSearchInRange};
ghost use Rattle.std.specs.Option.{ok_or};
ghost use Rattle.book.specs.Shelves.{empty_shelf, first};
ghost use Rattle.book.specs.declared.row.Row.{Row};
ghost use Rattle.ordered.specs.Places.{index_of, room};
ghost use Rattle.ordered.specs.Shelved.{shelved, ordered_rows, ordered_orderly};

use crate::OrderedBook;
use arrayvec::ArrayVec;
use book::row::Row;
use book::{Book, BookRefusal};
use nonce::spi::LOWEST_SPI;

/// The place of the row of an own SPI.
// by a walk: of 16 rows that is quicker than a search that branches on each step
fn index(rows: &[Row], own: u32) -> Option<usize>
    ensures value { result ≡ index_of rows.now own }
    ensures within { IfSome result (λ i. i < length rows.now) }
{
    rows.iter().position(|row| row.own == own)
}

impl OrderedBook {
    /// A book with no rows.
    pub fn new() -> OrderedBook
        ensures { shelved result ≡ empty_shelf 16 }
    {
        OrderedBook {
            rows: ArrayVec::new(),
        }
    }

    /// The place of the row of an own SPI, or else the place for a new one.
    fn place(&self, own: u32) -> Result<usize, usize>
        ensures value { result ≡ ok_or (index_of (ordered_rows self.now) own) (room (ordered_rows self.now) own) }
        ensures within { IsSearchInRange result (length (ordered_rows self.now)) }
    {
        self.rows
            .as_slice()
            .binary_search_by_key(&own, |row| row.own)
    }

    /// The place of the row of an own SPI. Refused where there is none.
    fn held(&self, own: u32) -> Result<usize, BookRefusal>
        ensures value { result ≡ ok_or (index_of (ordered_rows self.now) own) BookRefusal.Absent }
        ensures within { IfOk result (λ i. i < length (ordered_rows self.now)) }
    {
        index(self.rows.as_slice(), own).ok_or(BookRefusal::Absent)
    }

    /// The own SPI of the first row that passes a test.
    // from the front for both questions: of 16 rows a second way through them would save little
    fn first<F: Fn(&Row) -> bool>(&self, test: F) -> Option<u32>
        requires { F.IsAlwaysCallable test }
        ensures { (q : Row → Bool) → ((r : Row) (b : Bool) → FnReturnsAt F.Fn test r b → b ≡ q r) → result ≡ first q (ordered_rows self.now) }
    {
        self.rows.iter().find(|row| test(row)).map(|row| row.own)
    }
}

// `read`, `write` and `remove` read like the table's: a form of both would be a trait below the trait, and no shorter.
impl Book for OrderedBook {
    ghost shelf = { shelved };

    ghost orderly = { ordered_orderly };

    fn len(&self) -> usize {
        self.rows.len()
    }

    fn capacity(&self) -> usize {
        self.rows.capacity()
    }

    fn put(&mut self, row: Row) -> Result<(), BookRefusal> {
        if row.own < LOWEST_SPI {
            return Err(BookRefusal::Reserved);
        }
        let Err(place) = self.place(row.own) else {
            return Err(BookRefusal::Present);
        };
        if self.rows.is_full() {
            return Err(BookRefusal::Full);
        }
        self.rows.insert(place, row);
        Ok(())
    }

    fn read(&self, own: u32) -> Result<Row, BookRefusal> {
        let i = self.held(own)?;
        Ok(self.rows[i])
    }

    fn write(&mut self, row: Row) -> Result<(), BookRefusal> {
        let i = self.held(row.own)?;
        self.rows[i] = row;
        Ok(())
    }

    fn remove(&mut self, own: u32) -> Result<(), BookRefusal> {
        let i = self.held(own)?;
        self.rows.remove(i);
        Ok(())
    }

    fn find(&self, peer: u32) -> Option<u32> {
        self.first(|row| row.has_peer(peer))
    }

    fn next(&self, own: u32) -> Option<u32> {
        self.first(|row| row.is_above(own))
    }
}
