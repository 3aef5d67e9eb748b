//! A whole rekey and a whole collision, with books of either kind.
ghost use Rattle.std.specs.Prelude.{◌≡◌, [], IfSome, IsSome};
ghost use Rattle.calls.specs.Plain.{plain_moves};
ghost use Rattle.benched.specs.Moves.{rekey_moves, collision_moves};
ghost use Rattle.benched.specs.Plays.{Played, PlayedOrNot};

use crate::moves::{collision_moves, rekey_moves};
use crate::pairs::play;
use calls::moves::Move;
use ordered::OrderedBook;
use std::alloc::Global;
use table::TableBook;

/// What stands for a play that did not take place, since there was no memory for its answers.
const NO_MEMORY: u64 = u64::MAX;

/// Makes each call in turn, with two ordered books or two tables.
fn played(heap: Global, table: bool, moves: &[Move<&[u8]>]) -> Option<u64>
    ensures played { IfSome result (Played (plain_moves moves.now)) }
    ensures memory { moves.now ≡ [] → IsSome result }
{
    if table {
        play(heap, TableBook::new(), TableBook::new(), moves)
    } else {
        play(heap, OrderedBook::new(), OrderedBook::new(), moves)
    }
}

/// Makes two ends.
#[unsafe(no_mangle)]
pub extern "C" fn benched_made(heap: Global, table: bool) -> u64
    ensures { Played [] result }
{
    played(heap, table, &[]).unwrap_or(NO_MEMORY)
}

/// Makes two ends, which make an SA and rekey it.
#[unsafe(no_mangle)]
pub extern "C" fn benched_rekey(heap: Global, table: bool, low: &[u8], high: &[u8]) -> u64
    ensures { PlayedOrNot (rekey_moves low.now high.now) result }
{
    played(heap, table, &rekey_moves(low, high)).unwrap_or(NO_MEMORY)
}

/// Makes two ends, which make an SA and both rekey it at once.
#[unsafe(no_mangle)]
pub extern "C" fn benched_collision(heap: Global, table: bool, low: &[u8], high: &[u8]) -> u64
    ensures { PlayedOrNot (collision_moves low.now high.now) result }
{
    played(heap, table, &collision_moves(low, high)).unwrap_or(NO_MEMORY)
}
