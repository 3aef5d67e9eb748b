//! A message read from octets, for C.
ghost use Rattle.std.specs.Prelude.{◌≡◌};
ghost use Rattle.wire.specs.Decoding.{decoded};
ghost use Rattle.exported.specs.Records.{told};

use crate::record::{Record, recorded};
use numbered::Numbered;
use wire::decode::decode;

/// Reads a message: 0, and the record of what it says; or the number of the first check that fails, and the record as it was.
#[unsafe(no_mangle)]
pub extern "C" fn childsa_decode(octets: &[u8], out: &mut Record) -> u16
    ensures { (result, out.new) ≡ told (decoded octets.now) out.old }
{
    match decode(octets) {
        Ok(message) => {
            *out = recorded(message);
            0
        }
        Err(refusal) => refusal.number(),
    }
}
