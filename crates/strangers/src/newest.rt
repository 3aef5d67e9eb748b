//! A channel that keeps only the newest.
ghost use Rattle.std.specs.Prelude.{◌≤◌};
ghost use Rattle.std.specs.Option.{ForSome};
ghost use Rattle.nonce.specs.declared.side.Side.{Side};
ghost use Rattle.nonce.specs.Both.{at};
ghost use Rattle.strangers.specs.Sizes.{IsSized};

use arrayvec::ArrayVec;
use nonce::both::Both;

pub mod methods;

/// For each end the newest datagram that was sent there. It comes at every receive until a newer one takes its place.
#[derive(Drop)]
pub struct Newest {
    longest: usize,
    kept: Both<Option<ArrayVec<u8, 256>>>,
    ghost most: { longest ≤ 256 },
    ghost sizes: { (side : Side) → ForSome (at kept side) (λ d. IsSized longest d.items) },
}
