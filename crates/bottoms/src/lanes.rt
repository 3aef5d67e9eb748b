//! The datagrams for each end.
ghost use Rattle.std.specs.Prelude.{◌≡◌, ◌≤◌, true};
ghost use Rattle.nonce.specs.declared.side.Side.{Side};
ghost use Rattle.nonce.specs.Both.{at};
ghost use Rattle.bottoms.specs.Datagrams.{all_sized, lane_list};

use crate::datagram::Datagram;
use arrayvec::ArrayVec;
use nonce::both::Both;

pub(crate) mod methods;

/// At most 32 datagrams of 1 to `longest` octets for each end, in the order in which they come.
#[derive(Drop)]
pub(crate) struct Lanes {
    longest: usize,
    lists: Both<ArrayVec<Datagram, 32>>,
    ghost most: { longest ≤ 256 },
    ghost sizes: { (side : Side) → all_sized longest (lane_list (at lists side)) ≡ true },
}
