//! How a nonce is made from octets, and read back.
ghost use Rattle.std.specs.Prelude.{◌≡◌, ◌≤◌, length};
ghost use Rattle.nonce.specs.Nonces.{as_nonce};

use crate::Nonce;

impl Nonce {
    /// The nonce of these octets, or nothing where they are not 16 to 32.
    // an Option and no TryFrom, as std's `NonZero::new`: what a wrong length means is the caller's to say
    pub fn new(octets: &[u8]) -> Option<Nonce>
        ensures { result ≡ as_nonce octets.now }
    {
        let len = octets.len();
        if len < 16 || len > 32 {
            return None;
        }
        let mut kept = [0; 32];
        kept[0..len].copy_from_slice(octets);
        Some(Nonce { octets: kept, len })
    }

    /// The octets of the nonce.
    pub fn as_slice(&self) -> &[u8]
        ensures value { result.now ≡ self.now }
        ensures least { 16 ≤ length result.now }
        ensures most { length result.now ≤ 32 }
    {
        &self.octets[0..self.len]
    }
}
