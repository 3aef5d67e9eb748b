//! How a table is a book.
ghost use Rattle.std.specs.Prelude.{◌≡◌, ◌<◌, Bool, IfSome, IfOk, None, slice_index_or};
ghost use Rattle.std.specs.Fn.{FnReturnsAt};
ghost use Rattle.std.specs.Option.{ok_or};
ghost use Rattle.book.specs.Shelves.{empty_shelf};
ghost use Rattle.book.specs.declared.row.Row.{Row};
ghost use Rattle.table.specs.Slots.{home, holds, place_of, free_from, used, lowest};
ghost use Rattle.table.specs.Shelved.{shelved, table_orderly};

use crate::slots::{astray, holds, home, scan};
use crate::{CAPACITY, TableBook};
use book::row::Row;
use book::{Book, BookRefusal};
use nonce::spi::LOWEST_SPI;

impl TableBook {
    /// A book with no rows.
    pub fn new() -> TableBook
        ensures { shelved result ≡ empty_shelf 16 }
    {
        TableBook {
            slots: [None; CAPACITY],
            strays: 0,
        }
    }

    /// Whether the row of an own SPI stands in its hashed place.
    fn at_home(&self, own: u32) -> bool
        ensures { result ≡ holds (slice_index_or self.now.slots (home own) None) own }
    {
        holds(&self.slots[home(own)], own)
    }

    /// The place of the row of an own SPI. One that stands in its hashed place is found there at the first look, and
    /// another by a scan, where there are such.
    fn place(&self, own: u32) -> Option<usize>
        ensures value { result ≡ place_of self.now.slots own }
        ensures within { IfSome result (λ i. i < 16) }
    {
        if self.at_home(own) {
            return Some(home(own));
        }
        if self.strays == 0 {
            return None;
        }
        scan(&self.slots, own)
    }

    /// The same, refused where there is none.
    // that a place is below 16 stands at three functions; a type for a place would be longer
    fn held(&self, own: u32) -> Result<usize, BookRefusal>
        ensures value { result ≡ ok_or (place_of self.now.slots own) BookRefusal.Absent }
        ensures within { IfOk result (λ i. i < 16) }
    {
        self.place(own).ok_or(BookRefusal::Absent)
    }

    /// The hashed place of an own SPI where it is free, else the first free one after it, going on at the front.
    fn free_place(&self, own: u32) -> Option<usize>
        ensures value { result ≡ free_from self.now.slots (home own) 16 }
        ensures within { IfSome result (λ i. i < 16) }
    {
        let start = home(own);
        (0..CAPACITY)
            .map(|step| (start + step) % CAPACITY)
            .find(|i| self.slots[*i].is_none())
    }

    /// How many slots hold a row.
    fn used(&self) -> usize
        ensures { result ≡ used self.now.slots }
    {
        self.slots.iter().filter(|slot| slot.is_some()).count()
    }

    /// The lowest own SPI of a row that passes a test.
    fn lowest<F: Fn(&Row) -> bool>(&self, test: F) -> Option<u32>
        requires { F.IsAlwaysCallable test }
        ensures { (q : Row → Bool) → ((r : Row) (b : Bool) → FnReturnsAt F.Fn test r b → b ≡ q r) → result ≡ lowest q self.now.slots }
    {
        self.slots
            .iter()
            .flatten()
            .filter(|row| test(row))
            .map(|row| row.own)
            .min()
    }
}

// `read`, `write` and `remove` read like the ordered book's: a form of both would be a trait below the trait, and no shorter.
impl Book for TableBook {
    ghost shelf = { shelved };

    ghost orderly = { table_orderly };

    fn len(&self) -> usize {
        self.used()
    }

    fn capacity(&self) -> usize {
        self.slots.len()
    }

    fn put(&mut self, row: Row) -> Result<(), BookRefusal> {
        if row.own < LOWEST_SPI {
            return Err(BookRefusal::Reserved);
        }
        if self.place(row.own).is_some() {
            return Err(BookRefusal::Present);
        }
        let free = self.free_place(row.own).ok_or(BookRefusal::Full)?;
        self.strays += astray(row.own, free);
        self.slots[free] = Some(row);
        Ok(())
    }

    fn read(&self, own: u32) -> Result<Row, BookRefusal> {
        let i = self.held(own)?;
        self.slots[i].ok_or(BookRefusal::Absent)
    }

    fn write(&mut self, row: Row) -> Result<(), BookRefusal> {
        let i = self.held(row.own)?;
        self.slots[i] = Some(row);
        Ok(())
    }

    fn remove(&mut self, own: u32) -> Result<(), BookRefusal> {
        let i = self.held(own)?;
        self.strays -= astray(own, i);
        self.slots[i] = None;
        Ok(())
    }

    fn find(&self, peer: u32) -> Option<u32> {
        self.lowest(|row| row.has_peer(peer))
    }

    fn next(&self, own: u32) -> Option<u32> {
        self.lowest(|row| row.is_above(own))
    }
}
