//! Tests of both kinds of book, each by one function that takes any book.
#![tactic(auto)]

ghost use Rattle.std.specs.Prelude.{◌≡◌};

use book::row::{Row, RowState};

#[cfg(test)]
mod tests;

/// A row that stands, with this own and peer SPI.
fn row(own: u32, peer: u32) -> Row
    ensures { (result.own ≡ own) × (result.peer ≡ peer) }
{
    Row {
        own,
        peer,
        state: RowState::Standing,
        ..Row::default()
    }
}
