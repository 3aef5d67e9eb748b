//! A book that keeps each row in a place hashed from its own SPI, where that is free.
#![tactic(auto)]

ghost use Rattle.std.specs.Prelude.{◌≡◌, true, length};
ghost use Rattle.table.specs.Slots.{apart, strays_from};

use book::row::Row;

pub mod methods;
mod slots;

/// How many rows a book of this kind can have.
const CAPACITY: usize = 16;

// Slots of its own and no map of std, since a book needs no heap: fixed memory, a rule of the project.

/// A book of at most 16 rows. A row stands in its hashed place, or in another where that was taken.
#[derive(Drop)]
pub struct TableBook {
    slots: [Option<Row>; CAPACITY],
    /// How many rows stand in another place than their hashed one.
    strays: usize,
    ghost long: { length slots ≡ 16 },
    ghost ok: { apart slots ≡ true },
    ghost counted: { strays ≡ strays_from 0 slots },
}
