//! A queue for each end: the oldest datagram comes first.
ghost use Rattle.std.specs.Prelude.{refl};
ghost use Rattle.std.proofs.Math.Nat.{le_refl};
ghost use Rattle.std.proofs.Common.{inl};
ghost use Rattle.bottoms.specs.declared.rule.Fate.TheVariants.{Pass};

use crate::bottom::Bottom;
use crate::rule::{Fate, Rule};

/// What is sent is put behind the others.
#[derive(Default, Drop)]
pub struct OldestFirst;

impl Rule for OldestFirst {
    ghost depth = { 32 };

    ghost fate = { λ _. Pass };

    ghost rest = { λ rule. rule };

    fn next(&mut self) -> Fate {
        Fate::Pass
    }

    ghost most = { le_refl 32 };

    ghost once = { λ _ _. inl refl };
}

/// At most 32 datagrams wait at each end.
pub type Queue = Bottom<OldestFirst>;
