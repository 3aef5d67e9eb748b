//! A number made of many.
ghost use Rattle.std.specs.Prelude.{◌≡◌, slice_index};
ghost use Rattle.benched.specs.Mixed.{mixed, last};

/// Folds a number into those before.
pub(crate) fn mixed(before: u64, number: u64) -> u64
    ensures { result ≡ mixed before number }
{
    before.wrapping_mul(31).wrapping_add(number)
}

/// The octet at a place; 0 where there is none.
pub(crate) fn octet_at(octets: &[u8], place: usize) -> u64
    ensures { result ≡ slice_index octets.now place }
{
    octets.get(place).map_or(0, |octet| u64::from(*octet))
}

/// The last octet; 0 where there is none.
pub(crate) fn last(octets: &[u8]) -> u64
    ensures { result ≡ last octets.now }
{
    octet_at(octets, octets.len().saturating_sub(1))
}
