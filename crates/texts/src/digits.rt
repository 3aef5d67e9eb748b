//! Octets as hexadecimal digits.
ghost use Rattle.std.specs.Prelude.{◌≡◌, ◌≤◌, length, IfOk, Some, vec_items};
ghost use Rattle.std.specs.Option.{option_map};
ghost use Rattle.std.specs.Fmt.{DisplaysOnOk};
ghost use Rattle.texts.specs.Hex.{from_hex, hex_text};

use hex::FromHexError;
use std::alloc::{AllocError, Global};
use std::fmt;

/// The octets that a text writes, two hexadecimal digits of either case for each, or nothing where it is no such text.
pub fn from_hex(heap: Global, text: &str) -> Result<Option<Vec<u8>>, AllocError>
    ensures { IfOk result (λ o. option_map vec_items o ≡ from_hex text.now) }
{
    // each refusal by name: tried with `Err(_)`, where the proof is not told that memory is not what was wanting
    match hex::decode(heap, text) {
        Ok(octets) => Ok(Some(octets)),
        Err(FromHexError::OutOfMemory) => Err(AllocError),
        Err(FromHexError::OddLength) => Ok(None),
        Err(FromHexError::InvalidStringLength) => Ok(None),
        Err(FromHexError::InvalidHexCharacter { .. }) => Ok(None),
    }
}

/// Octets as text, two hexadecimal digits of lower case for each.
#[derive(Clone, Copy)]
pub struct Hex<'a>(pub &'a [u8]);

/// As many octets are written in one: no datagram has more.
const AT_ONCE: usize = 256;

/// Writes octets in one: a writer that is asked for each octet takes longer than the digits.
fn write_at_once<W: fmt::Write>(octets: &[u8], f: &mut fmt::Formatter<W>) -> fmt::Result
    requires { length octets.now ≤ 256 }
    ensures { DisplaysOnOk W.write_str_gives f.old result (Some (hex_text octets.now)) f.new }
{
    let mut room = [0; 2 * AT_ONCE];
    let digits = &mut room[..2 * octets.len()];
    hex::encode_to_slice(octets, digits).map_err(|_| fmt::Error)?;
    let text = str::from_utf8(digits).map_err(|_| fmt::Error)?;
    f.write_str(text)
}

impl fmt::Display for Hex<'_> {
    ghost output = { λ h. Some (hex_text h.0.now) };

    fn fmt<W: fmt::Write>(&self, f: &mut fmt::Formatter<W>) -> fmt::Result {
        if self.0.len() <= AT_ONCE {
            return write_at_once(self.0, f);
        }
        for &octet in self.0 {
            write!(f, "{octet:02x}")?;
        }
        Ok(())
    }
}
