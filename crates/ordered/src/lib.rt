//! A book that keeps its rows in a vector by rising own SPI.
#![tactic(auto)]

ghost use Rattle.std.specs.Prelude.{◌≡◌, ◌≤◌, true};
ghost use Rattle.nonce.specs.Spis.{last_reserved};
ghost use Rattle.arrayvec.specs.ArrayVec.{array_vec_len};
ghost use Rattle.ordered.specs.Places.{rises};

use arrayvec::ArrayVec;
use book::row::Row;

pub mod methods;

/// How many rows a book of this kind can have.
const CAPACITY: usize = 16;

/// A book of at most 16 rows, by rising own SPI.
#[derive(Drop)]
pub struct OrderedBook {
    rows: ArrayVec<Row, CAPACITY>,
    ghost most: { array_vec_len rows ≤ 16 },
    ghost ok: { rises last_reserved rows.items ≡ true },
}
