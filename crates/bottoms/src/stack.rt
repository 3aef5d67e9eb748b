//! A stack for each end: the newest datagram comes first.
ghost use Rattle.std.specs.Prelude.{refl};
ghost use Rattle.std.proofs.Math.Nat.{le_refl};
ghost use Rattle.std.proofs.Common.{inr};
ghost use Rattle.bottoms.specs.declared.rule.Fate.TheVariants.{Jump};

use crate::bottom::Bottom;
use crate::rule::{Fate, Rule};

/// What is sent is put before the others.
// beside `OldestFirst`, a type each: a channel is named by its rule's type
#[derive(Default, Drop)]
pub struct NewestFirst;

impl Rule for NewestFirst {
    ghost depth = { 32 };

    ghost fate = { λ _. Jump };

    ghost rest = { λ rule. rule };

    fn next(&mut self) -> Fate {
        Fate::Jump
    }

    ghost most = { le_refl 32 };

    ghost once = { λ _ _. inr refl };
}

/// At most 32 datagrams wait at each end.
pub type Stack = Bottom<NewestFirst>;
