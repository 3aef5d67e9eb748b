//! A channel and a book of somebody else's, written against the traits: the law of two ends holds of them with no further proof.
#![tactic(auto)]

ghost use Rattle.std.specs.Prelude.{◌≡◌, IfSome, IfOk, IfErr};
ghost use Rattle.calls.specs.Plain.{plain_moves};
ghost use Rattle.law.specs.Laws.{Lawful, GoesOn};
ghost use Rattle.law.specs.Runs.{Start};
ghost use Rattle.pair.specs.Worlds.{world};
ghost use Rattle.strangers.specs.Newest.{behaves};

use any_order::Drawer;
use calls::answers::Answer;
use calls::making::Making;
use calls::moves::Move;
use newest::Newest;
use pair::Pair;
use std::alloc::{AllocError, Global};

mod any_order;
mod newest;
mod queued;
#[cfg(test)]
mod tests;

/// Two ends that file in drawers, over a channel that keeps the newest.
type Strangers = Pair<Drawer, Drawer, Newest>;

/// Such ends as they are made, if they are: a run from here keeps the law at every moment.
fn made(making: Making, a: Drawer, b: Drawer, longest: usize) -> Option<Strangers>
    ensures { IfSome result (λ pair. Start behaves (world pair)) }
{
    let channel = Newest::new(longest)?;
    Pair::new(making, a, b, channel).ok()
}

/// Calls of such ends. The clauses are those of `run`, at these types, and nothing is proved here but that it is called.
fn law_for_strangers(
    pair: &mut Strangers,
    heap: Global,
    moves: &[Move<&[u8]>],
) -> Result<Vec<Answer>, AllocError>
    ensures law { IfOk result (λ answers. Lawful behaves (world pair.old) (plain_moves moves.now) answers.items (world pair.new)) }
    ensures goes_on { IfOk result (λ answers. GoesOn behaves (world pair.old) (plain_moves moves.now) answers.items (world pair.new)) }
    ensures nothing { IfErr result (λ _. pair.new ≡ pair.old) }
{
    pair.run(heap, moves)
}
