//! Slots, each of which may hold a row.
ghost use Rattle.std.specs.Prelude.{◌≡◌, ◌<◌, length, IfSome};
ghost use Rattle.table.specs.Slots.{home, astray, holds, place_in};

use crate::CAPACITY;
use book::row::Row;

/// The hashed place of an own SPI.
pub(crate) fn home(own: u32) -> usize
    ensures { result ≡ home own }
{
    own as usize % CAPACITY
}

/// 1 where a row of an own SPI is in another place than its hashed one, and 0 there.
pub(crate) fn astray(own: u32, place: usize) -> usize
    ensures { result ≡ astray own place }
{
    usize::from(place != home(own))
}

/// Whether a slot holds the row of an own SPI.
pub(crate) fn holds(slot: &Option<Row>, own: u32) -> bool
    ensures { result ≡ holds slot.now own }
{
    slot.is_some_and(|row| row.own == own)
}

/// The first slot that holds the row of an own SPI.
pub(crate) fn scan(slots: &[Option<Row>], own: u32) -> Option<usize>
    ensures value { result ≡ place_in slots.now own }
    ensures within { IfSome result (λ i. i < length slots.now) }
{
    slots.iter().position(|slot| holds(slot, own))
}
