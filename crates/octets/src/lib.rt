//! Numbers of four and eight octets in a row of octets, the most significant octet first.
#![tactic(auto)]

ghost use Rattle.std.specs.Prelude.{◌≡◌, take, drop};
ghost use Rattle.octets.specs.Numbers.{word, long, within};

/// The octets of a row from place `i` on, as many as are wanted, or nothing where the row ends before.
fn octets_at<const N: usize>(s: &[u8], i: usize) -> Option<[u8; N]>
    ensures { result ≡ within s.now i N (take N (drop i s.now)) }
{
    s.get(i..)?.first_chunk().copied()
}

// Two names over one function, each a line: a trait over both types would be longer than they are.

/// The number in the four octets from place `i` on, or nothing where the row ends before.
pub fn u32_at(s: &[u8], i: usize) -> Option<u32>
    ensures { result ≡ within s.now i 4 (word s.now i) }
{
    octets_at(s, i).map(u32::from_be_bytes)
}

/// The number in the eight octets from place `i` on, or nothing where the row ends before.
pub fn u64_at(s: &[u8], i: usize) -> Option<u64>
    ensures { result ≡ within s.now i 8 (long s.now i) }
{
    octets_at(s, i).map(u64::from_be_bytes)
}
