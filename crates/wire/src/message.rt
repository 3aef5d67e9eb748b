//! What the messages about Child SAs say.
ghost use Rattle.std.specs.Prelude.{◌≡◌};
ghost use Rattle.numbered.specs.Apart.{apart_by};
ghost use Rattle.wire.specs.Payloads.{failure_number, failure_spi};
ghost use Rattle.wire.specs.Refusals.{decode_number, decode_of, decode_told, encode_number, encode_of, encode_told};

use nonce::side::Side;
use numbered::Numbered;

/// A message of one end to the other. `N` is how its nonce is held: as a part of the datagram
/// that it came in, or in a place of its own.
#[derive(Clone, Copy)]
pub struct Message<N> {
    /// The IKE SPI of A, the original initiator.
    pub initiator: u64,
    /// The IKE SPI of B, the original responder.
    pub responder: u64,
    /// Who sends it.
    pub sender: Side,
    /// The Message ID.
    pub id: u32,
    pub body: Body<N>,
}

/// A message is a request or a response.
#[derive(Clone, Copy)]
pub enum Body<N> {
    Request(Request<N>),
    Response(Response<N>),
}

/// What a request asks for.
// SPI and nonce stand by name in each case, as a match reads them; a struct of both would be one more to take apart
#[derive(Clone, Copy)]
pub enum Request<N> {
    /// A new SA, by the requester's SPI for it.
    Create { spi: u32, nonce: N },
    /// A new SA in the place of the one that the requester knows by its SPI `old`.
    Rekey { old: u32, spi: u32, nonce: N },
    /// The end of the SA that the requester knows by its SPI.
    Delete { spi: u32 },
    /// Nothing but an answer.
    Empty,
}

/// What a response says.
// `NewSa`, `Delete` and `Empty` are like cases of `Request`: two types, so that no request can say what only a response says
#[derive(Clone, Copy)]
pub enum Response<N> {
    /// The new SA, by the responder's SPI for it.
    NewSa { spi: u32, nonce: N },
    /// There is no new SA.
    Failed(Failure),
    /// The SA is deleted, which the responder knew by its SPI.
    Delete { spi: u32 },
    /// Nothing.
    Empty,
}

/// Why there is no new SA: the error notifications.
#[derive(Clone, Copy)]
pub enum Failure {
    NoProposalChosen,
    NoAdditionalSas,
    TemporaryFailure,
    /// The requester's SPI of the SA to be rekeyed is not known.
    ChildSaNotFound { spi: u32 },
}

impl Failure {
    /// The type of the notification.
    pub fn number(self) -> u16
        ensures { result ≡ failure_number self }
    {
        match self {
            Failure::NoProposalChosen => 14,
            Failure::NoAdditionalSas => 35,
            Failure::TemporaryFailure => 43,
            Failure::ChildSaNotFound { .. } => 44,
        }
    }

    /// The SPI that was not found; 0, where none is told.
    pub fn spi(self) -> u32
        ensures { result ≡ failure_spi self }
    {
        match self {
            Failure::ChildSaNotFound { spi } => spi,
            _ => 0,
        }
    }
}

/// Why octets are no message, by the first check that fails; as a number, that of the check.
#[derive(Clone, Copy, PartialEq, Eq, Debug)]
pub enum DecodeRefusal {
    /// Shorter than a header, longer than any message, or not as long as the header says.
    Length = 40,
    /// Another version, exchange type or set of flags.
    Header = 41,
    /// No chain of payloads, or not in an order that such a message has.
    Chain = 42,
    /// A payload has other octets, or another length, than such a message has there.
    Payload = 43,
    /// A nonce that is not 16 to 32 octets long.
    NonceLength = 44,
}

/// Why a message is not written.
#[derive(Clone, Copy, PartialEq, Eq, Debug)]
pub enum EncodeRefusal {
    /// The buffer is shorter than the message.
    BufferTooShort = 45,
}

impl Numbered for DecodeRefusal {
    ghost number_of = { decode_number };

    fn number(self) -> u16 {
        self as u16
    }

    ghost apart = { apart_by decode_number decode_of decode_told };
}

impl Numbered for EncodeRefusal {
    ghost number_of = { encode_number };

    fn number(self) -> u16 {
        self as u16
    }

    ghost apart = { apart_by encode_number encode_of encode_told };
}
