//! Where a bottom puts what is sent.
ghost use Rattle.std.specs.Prelude.{◌≡◌, ℕ, ◌<◌, ◌≤◌, ◌⊎◌};
ghost use Rattle.bottoms.specs.declared.rule.Fate.{Fate};
ghost use Rattle.bottoms.specs.declared.rule.Fate.TheVariants.{Pass, Jump};

/// The fate of a datagram that is taken.
#[derive(Clone, Copy)]
pub enum Fate {
    /// It is added behind the others.
    Pass,
    /// It is lost.
    Lose,
    /// It is added twice or, short of space, once.
    Double,
    /// It is added before the others.
    Jump,
}

/// What has a fate for each datagram that is taken.
pub trait Rule {
    /// How many datagrams may wait at an end while each is there just as often as it is listed; 0, where a fate may lose or
    /// double one.
    ghost depth: { ℕ };

    /// The next fate, and the rule after it was used.
    ghost fate: { Self → Fate };

    ghost rest: { Self → Self };

    /// Uses the next fate.
    fn next(&mut self) -> Fate
        ensures fate { result ≡ fate self.old }
        ensures rest { self.new ≡ rest self.old };

    /// No more than the places at an end.
    ghost most: { depth ≤ 32 };

    /// A rule with a depth adds each datagram once.
    ghost once: { (rule : Self) → 0 < depth → (fate rule ≡ Pass) ⊎ (fate rule ≡ Jump) };
}
