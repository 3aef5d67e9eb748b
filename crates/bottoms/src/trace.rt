//! A trace: the oldest datagram comes first, and each send has a fate.
ghost use Rattle.std.specs.Prelude.{◌≡◌, drop, refl};
ghost use Rattle.std.proofs.Math.Nat.{lt_irrefl, le_of_sub-eq-zero};
ghost use Rattle.std.specs.Result.{result_map_both};
ghost use Rattle.bottoms.specs.Fates.{fate_of, next_fate};
ghost use Rattle.bottoms.specs.Traces.{traced, trace_fresh};

use crate::bottom::Bottom;
use crate::lanes::Lanes;
use crate::refusal::MakeRefusal;
use crate::rule::{Fate, Rule};
use std::marker::Model;
use std::vec::IntoIter;

impl From<u8> for Fate {
    ghost from_gives = { λ letter fate. fate ≡ fate_of letter };

    /// The fate that a letter means: p, l, 2 or j; any other means p.
    fn from(letter: u8) -> Fate {
        match letter {
            b'l' => Fate::Lose,
            b'2' => Fate::Double,
            b'j' => Fate::Jump,
            _ => Fate::Pass,
        }
    }
}

/// A letter for each fate that is left.
#[derive(Drop)]
pub struct Fates {
    letters: IntoIter<u8>,
}

impl Model for Fates {
    ghost use Rattle.std.specs.Prelude.{ℕ, List};
    ghost use Rattle.std.specs.Vec.Iter.{into_iter_items};

    ghost Value = { List ℕ };

    ghost view = { λ f. into_iter_items f.letters };
}

impl Rule for Fates {
    ghost depth = { 0 };

    ghost fate = { next_fate };

    ghost rest = { drop 1 };

    /// Uses the next fate. After the last one, each is p.
    fn next(&mut self) -> Fate {
        self.letters.next().map_or(Fate::Pass, Fate::from)
    }

    ghost most = { le_of_sub-eq-zero refl };

    ghost once = { λ _ deep. absurd (lt_irrefl 0 deep) };
}

/// At most 32 datagrams are there for each end.
pub type Trace = Bottom<Fates>;

impl Trace {
    /// A trace in which nothing waits, for datagrams of at most `longest` octets, with a letter for the fate of each send:
    /// p adds it last; l takes and loses it; 2 adds it twice or, short of space, once; j adds it in front. Any other letter,
    /// and each send after the last, means p. The letters may be as many as one likes.
    pub fn new(longest: usize, fates: Vec<u8>) -> Result<Trace, MakeRefusal>
        ensures { result_map_both traced (λ e. e) result ≡ trace_fresh longest fates.items }
    {
        let lanes = Lanes::new(longest)?;
        let letters = fates.into_iter();
        Ok(Bottom {
            lanes,
            rule: Fates { letters },
        })
    }
}
