//! A nonce in a place of 32 octets.
ghost use Rattle.std.specs.Prelude.{◌≡◌, ◌≤◌, length};
ghost use Rattle.exported.specs.Records.{padded};

/// The octets of a nonce, with zeros behind them.
pub(crate) fn padded(nonce: &[u8]) -> [u8; 32]
    requires { length nonce.now ≤ 32 }
    ensures { result ≡ padded nonce.now }
{
    let mut octets = [0; 32];
    octets[0..nonce.len()].copy_from_slice(nonce);
    octets
}
