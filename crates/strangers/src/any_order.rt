//! A book that keeps its rows in no order.
ghost use Rattle.std.specs.Prelude.{◌≡◌, ◌≤◌, true};
ghost use Rattle.std.specs.Vec.{vec_len, vec_capacity};
ghost use Rattle.strangers.specs.Sorted.{apart};

use book::row::Row;

pub mod methods;

/// A book of rows in the order in which they came. The room for all that there can be is taken when it is made.
#[derive(Drop)]
pub struct Drawer {
    rows: Vec<Row>,
    most: usize,
    ghost within: { vec_len rows ≤ most },
    ghost room: { most ≤ vec_capacity rows },
    ghost ok: { apart rows.items ≡ true },
}
