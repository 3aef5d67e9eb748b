//! Two ends over a queue: what the law asks of a channel is there.
ghost use Rattle.std.specs.Prelude.{IfSome};
ghost use Rattle.bottoms.specs.Bottoms.{queue_behaves};
ghost use Rattle.law.specs.Laws.{HoldsTwo};
ghost use Rattle.law.specs.Runs.{Start};
ghost use Rattle.pair.specs.Worlds.{world};

use crate::any_order::Drawer;
use bottoms::queue::Queue;
use calls::making::Making;
use pair::Pair;

/// Two ends that file in drawers, over a queue.
pub(crate) type Queued = Pair<Drawer, Drawer, Queue>;

/// Such ends as they are made, if they are. Nothing may come, and the queue holds two messages for each end: so of their runs
/// the whole law holds, with no premise left.
pub(crate) fn made(making: Making, a: Drawer, b: Drawer) -> Option<Queued>
    ensures start { IfSome result (λ pair. Start queue_behaves (world pair)) }
    ensures holds_two { IfSome result (λ pair. HoldsTwo (queue_behaves.meaning pair.channel)) }
{
    let channel = Queue::new(160).ok()?;
    Pair::new(making, a, b, channel).ok()
}
