//! Octets that are put together piece by piece, in a buffer or in a vector of a fixed capacity.
ghost use Rattle.std.specs.Prelude.{◌≡◌, ◌+◌, ◌<◌, ◌≤◌, ◌∷◌, ◌++◌, length};
ghost use Rattle.arrayvec.specs.ArrayVec.{array_vec_len};
ghost use Rattle.octets.specs.Numbers.{be16};
ghost use Rattle.wire.specs.Encoding.{placed};
ghost use Rattle.wire.specs.Messages.{announced};

use crate::payload::{PayloadType, announced};
use arrayvec::ArrayVec;

/// These octets more.
pub(crate) fn push<const N: usize>(text: &mut ArrayVec<u8, N>, part: &[u8])
    requires { array_vec_len text.old + length part.now ≤ N }
    ensures { text.new.items ≡ text.old.items ++ part.now }
{
    text.try_extend_from_slice(part).unwrap();
}

/// Puts octets into a buffer, from a place on.
#[tactic(auto, unfolding(crate::specs::Encoding::placed))]
pub(crate) fn put(out: &mut [u8], at: usize, part: &[u8])
    requires { at + length part.now ≤ length out.old }
    ensures { out.new ≡ placed at part.now out.old }
{
    out[at..at + part.len()].copy_from_slice(part);
}

/// How many octets a payload of this body has.
pub(crate) fn payload_len(body: &[u8]) -> usize
    requires { length body.now < 65532 }
    ensures { result ≡ 4 + length body.now }
{
    4 + body.len()
}

/// Puts a payload into a buffer, from a place on: the type of the next, a zero octet, its length with these four octets, and
/// its body. Says where it ends.
pub(crate) fn put_payload(
    out: &mut [u8],
    at: usize,
    next: Option<PayloadType>,
    body: &[u8],
) -> usize
    requires room { at + (4 + length body.now) ≤ length out.old }
    requires short { length body.now < 65532 }
    ensures end { result ≡ at + (4 + length body.now) }
    ensures octets { out.new ≡ placed at (announced next ∷ 0 ∷ (be16 (4 + length body.now) ++ body.now)) out.old }
{
    let [high, low] = (4 + body.len() as u16).to_be_bytes();
    put(out, at, &[announced(next), 0, high, low]);
    put(out, at + 4, body);
    at + 4 + body.len()
}
