//! The header of a message.
ghost use Rattle.std.specs.Prelude.{◌≡◌};
ghost use Rattle.std.specs.Option.{ok_or};
ghost use Rattle.wire.specs.Decoding.{exchange_in, flags_in};
ghost use Rattle.wire.specs.Messages.{flags_octet};
ghost use Rattle.wire.specs.declared.message.DecodeRefusal.TheVariants as refusal;

use crate::message::DecodeRefusal;
use nonce::side::Side;

/// The version of IKE, 2.0.
pub(crate) const VERSION: u8 = 0x20;

/// What a header says, with the type of the first payload.
// IKE SPIs and ID by name, as in `Message`: what lies between differs, and a struct of three would be one more to take apart
#[derive(Clone, Copy)]
pub(crate) struct Header {
    pub initiator: u64,
    pub responder: u64,
    // as it was announced: any octet, and not only one that names a type
    pub next: u8,
    pub exchange: Exchange,
    pub flags: Flags,
    pub id: u32,
}

/// The exchanges about Child SAs.
#[derive(Clone, Copy)]
pub(crate) enum Exchange {
    CreateChildSa = 36,
    Informational = 37,
}

/// Whether a message asks or answers.
#[derive(Clone, Copy, PartialEq, Eq, Debug)]
pub enum Direction {
    Asking = 0x00,
    Answering = 0x20,
}

/// Who sends a message, and whether it asks or answers.
#[derive(Clone, Copy)]
pub(crate) struct Flags {
    pub sender: Side,
    pub direction: Direction,
}

impl TryFrom<u8> for Exchange {
    type Error = DecodeRefusal;

    ghost try_from_gives = { λ octet r. r ≡ ok_or (exchange_in octet) refusal.Header };

    fn try_from(octet: u8) -> Result<Exchange, DecodeRefusal> {
        match octet {
            36 => Ok(Exchange::CreateChildSa),
            37 => Ok(Exchange::Informational),
            _ => Err(DecodeRefusal::Header),
        }
    }
}

impl TryFrom<u8> for Flags {
    type Error = DecodeRefusal;

    ghost try_from_gives = { λ octet r. r ≡ ok_or (flags_in octet) refusal.Header };

    fn try_from(octet: u8) -> Result<Flags, DecodeRefusal> {
        let (sender, direction) = match octet {
            0x00 => (Side::B, Direction::Asking),
            0x08 => (Side::A, Direction::Asking),
            0x20 => (Side::B, Direction::Answering),
            0x28 => (Side::A, Direction::Answering),
            _ => return Err(DecodeRefusal::Header),
        };
        Ok(Flags { sender, direction })
    }
}

impl From<Flags> for u8 {
    ghost from_gives = { λ flags octet. octet ≡ flags_octet flags };

    fn from(flags: Flags) -> u8 {
        let sent = match flags.sender {
            Side::A => 0x08,
            Side::B => 0x00,
        };
        sent + flags.direction as u8
    }
}
