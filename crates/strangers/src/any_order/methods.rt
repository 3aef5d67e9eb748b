//! How a drawer is a book.
ghost use Rattle.std.specs.Prelude.{◌≡◌, Bool, IfOk};
ghost use Rattle.std.specs.Fn.{FnReturnsAt};
ghost use Rattle.book.specs.Shelves.{empty_shelf, lookup, first};
ghost use Rattle.book.specs.declared.row.Row.{Row};
ghost use Rattle.strangers.specs.Drawers.{shelved, drawer_orderly};

use crate::any_order::Drawer;
use book::row::Row;
use book::{Book, BookRefusal};
use nonce::spi::LOWEST_SPI;
use std::alloc::{AllocError, Global};

impl Drawer {
    /// A book with no rows, and room for this many.
    pub fn new(heap: Global, most: usize) -> Result<Drawer, AllocError>
        ensures { IfOk result (λ drawer. shelved drawer ≡ empty_shelf most) }
    {
        let rows = Vec::with_capacity(heap, most)?;
        Ok(Drawer { rows, most })
    }

    /// The row of an own SPI.
    fn row(&self, own: u32) -> Option<Row>
        ensures { result ≡ lookup (shelved self.now).rows own }
    {
        self.rows.iter().find(|row| row.own == own).copied()
    }

    /// The lowest own SPI of a row that passes a test.
    fn lowest<F: Fn(&Row) -> bool>(&self, test: F) -> Option<u32>
        requires { F.IsAlwaysCallable test }
        ensures { (q : Row → Bool) → ((r : Row) (b : Bool) → FnReturnsAt F.Fn test r b → b ≡ q r) → result ≡ first q (shelved self.now).rows }
    {
        self.rows
            .iter()
            .filter(|row| test(row))
            .map(|row| row.own)
            .min()
    }
}

impl Book for Drawer {
    ghost shelf = { shelved };

    ghost orderly = { drawer_orderly };

    #[tactic(auto, using(crate::specs::Sorted::length_sorted))]
    fn len(&self) -> usize {
        self.rows.len()
    }

    fn capacity(&self) -> usize {
        self.most
    }

    fn put(&mut self, row: Row) -> Result<(), BookRefusal> {
        if row.own < LOWEST_SPI {
            return Err(BookRefusal::Reserved);
        }
        if self.row(row.own).is_some() {
            return Err(BookRefusal::Present);
        }
        if self.rows.len() == self.most {
            return Err(BookRefusal::Full);
        }
        let _fits = self.rows.push(row);
        Ok(())
    }

    #[tactic(auto, using(crate::proofs::Lowest::read_or))]
    fn read(&self, own: u32) -> Result<Row, BookRefusal> {
        self.row(own).ok_or(BookRefusal::Absent)
    }

    /// The row that is written is then the one that came last.
    fn write(&mut self, row: Row) -> Result<(), BookRefusal> {
        self.remove(row.own)?;
        self.put(row)
    }

    fn remove(&mut self, own: u32) -> Result<(), BookRefusal> {
        self.read(own)?;
        self.rows.retain(|row| row.own != own);
        Ok(())
    }

    fn find(&self, peer: u32) -> Option<u32> {
        self.lowest(|row| row.has_peer(peer))
    }

    fn next(&self, own: u32) -> Option<u32> {
        self.lowest(|row| row.is_above(own))
    }
}
