//! A datagram in a place of its own.
ghost use Rattle.std.specs.Prelude.{◌≡◌, ◌≤◌, length};

use arrayvec::ArrayVec;

/// At most 256 octets.
pub(crate) type Datagram = ArrayVec<u8, 256>;

/// The datagram of these octets.
pub(crate) fn datagram(octets: &[u8]) -> Datagram
    requires { length octets.now ≤ 256 }
    ensures { result.items ≡ octets.now }
{
    let mut datagram = Datagram::new();
    let _fits = datagram.try_extend_from_slice(octets);
    datagram
}
