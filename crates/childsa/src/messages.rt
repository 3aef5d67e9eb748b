//! The commands on messages and nonces.
ghost use Rattle.std.specs.Prelude.{◌≡◌, IfOk, string_bytes};
ghost use Rattle.wire.specs.Decoding.{decoded};
ghost use Rattle.wire.specs.Messages.{octets_of};
ghost use Rattle.nonce.specs.Order.{lower_of, loser_in};
ghost use Rattle.nonce.specs.Names.{side_text};
ghost use Rattle.childsa.specs.Told.{decoded_text};
ghost use Rattle.texts.specs.Hex.{hex_text};

use crate::words::Words;
use crate::wrong::{Stop, Wrong};
use nonce::Nonce;
use nonce::order::{Exchanged, compare};
use std::alloc::{AllocError, Global};
use texts::digits::Hex;
use texts::told::{Refused, Told};
use wire::header::Direction;
use wire::message::{Body, Failure, Message, Request, Response};

/// As many octets as the longest message has.
const LONGEST: usize = 160;

/// `decode HEX`: the message that the octets are, or the number of the check that they fail.
pub(crate) fn decode(words: &mut Words<'_>) -> Result<String, Stop> {
    let octets = words.datagram()?;
    words.end()?;
    Ok(decoded_text(words.heap, octets.as_slice())?)
}

/// `encode MESSAGE`: the octets of the message.
pub(crate) fn encode(words: &mut Words<'_>) -> Result<String, Stop> {
    let message = read_message(words)?;
    words.end()?;
    octets_text(words.heap, &message)
}

/// `lower NONCE NONCE`: the lower of the two.
pub(crate) fn lower(words: &mut Words<'_>) -> Result<String, Stop> {
    let first = words.nonce("a nonce")?;
    let second = words.nonce("a second nonce")?;
    words.end()?;
    Ok(lower_text(words.heap, &first, &second)?)
}

/// `loser NONCE NONCE NONCE NONCE`: whose new SA loses, by the nonces of A's exchange and then of B's.
pub(crate) fn loser(words: &mut Words<'_>) -> Result<String, Stop> {
    let a = read_exchanged(words)?;
    let b = read_exchanged(words)?;
    words.end()?;
    Ok(loser_text(words.heap, &a, &b)?)
}

/// The nonces of an exchange.
fn read_exchanged(words: &mut Words<'_>) -> Result<Exchanged, Stop> {
    let initiator = words.nonce("the initiator's nonce")?;
    let responder = words.nonce("the responder's nonce")?;
    Ok(Exchanged {
        initiator,
        responder,
    })
}

/// The message that octets are as text, or the number of the check that they fail.
fn decoded_text(heap: Global, octets: &[u8]) -> Result<String, AllocError>
    ensures { IfOk result (λ s. string_bytes s ≡ decoded_text (decoded octets.now)) }
{
    match wire::decode::decode(octets) {
        Ok(message) => Told(message).to_string(heap),
        Err(refusal) => Refused(refusal).to_string(heap),
    }
}

/// The octets of a message as text.
fn octets_text(heap: Global, message: &Message<Nonce>) -> Result<String, Stop>
    ensures { IfOk result (λ s. string_bytes s ≡ hex_text (octets_of message.now)) }
{
    // fixed memory: `encode` writes into the octets of its caller, who need not know how many it takes
    let mut buffer = [0u8; LONGEST];
    let len = message.encode(&mut buffer).map_err(|_| Wrong::NoRoom)?;
    Ok(Hex(&buffer[0..len]).to_string(heap)?)
}

/// The lower of two nonces as text.
fn lower_text(heap: Global, first: &Nonce, second: &Nonce) -> Result<String, AllocError>
    ensures { IfOk result (λ s. string_bytes s ≡ hex_text (lower_of first.now second.now)) }
{
    Hex(compare::lower(first, second)).to_string(heap)
}

/// The end whose new SA loses, as text.
fn loser_text(heap: Global, a: &Exchanged, b: &Exchanged) -> Result<String, AllocError>
    ensures { IfOk result (λ s. string_bytes s ≡ side_text (loser_in a.now b.now)) }
{
    compare::loser(a, b).to_string(heap)
}

/// A message, in the words that `decode` prints.
fn read_message(words: &mut Words<'_>) -> Result<Message<Nonce>, Stop> {
    words.keyword("ike")?;
    let initiator = words.ike_spi("the IKE SPI of A")?;
    let responder = words.ike_spi("the IKE SPI of B")?;
    let sender = words.side()?;
    let direction = read_direction(words)?;
    let id = words.number("a Message ID")?;
    let body = match direction {
        Direction::Asking => Body::Request(read_request(words)?),
        Direction::Answering => Body::Response(read_response(words)?),
    };
    Ok(Message {
        initiator,
        responder,
        sender,
        id,
        body,
    })
}

/// `request` or `response`.
fn read_direction(words: &mut Words<'_>) -> Result<Direction, Stop> {
    words.choice(
        "`request` or `response`",
        &[
            ("request", Direction::Asking),
            ("response", Direction::Answering),
        ],
    )
}

/// What a request asks for.
// a match on the word, as in the two below: behind each word others are read
fn read_request(words: &mut Words<'_>) -> Result<Request<Nonce>, Stop> {
    let expected = "`create`, `rekey`, `delete` or `empty`";
    match words.word(expected)? {
        "create" => {
            let spi = read_spi(words)?;
            Ok(Request::Create {
                spi,
                nonce: read_nonce(words)?,
            })
        }
        "rekey" => {
            words.keyword("old")?;
            let old = words.number("the SPI of the old SA")?;
            let spi = read_spi(words)?;
            Ok(Request::Rekey {
                old,
                spi,
                nonce: read_nonce(words)?,
            })
        }
        "delete" => Ok(Request::Delete {
            spi: read_spi(words)?,
        }),
        "empty" => Ok(Request::Empty),
        word => words.unexpected(word, expected),
    }
}

/// What a response says.
fn read_response(words: &mut Words<'_>) -> Result<Response<Nonce>, Stop> {
    let expected = "`new`, `notify`, `delete` or `empty`";
    match words.word(expected)? {
        "new" => {
            let spi = read_spi(words)?;
            Ok(Response::NewSa {
                spi,
                nonce: read_nonce(words)?,
            })
        }
        "notify" => Ok(Response::Failed(read_failure(words)?)),
        "delete" => Ok(Response::Delete {
            spi: read_spi(words)?,
        }),
        "empty" => Ok(Response::Empty),
        word => words.unexpected(word, expected),
    }
}

/// The number of an error notification, and the SPI that 44 says.
fn read_failure(words: &mut Words<'_>) -> Result<Failure, Stop> {
    let expected = "14, 35, 43 or 44";
    match words.word(expected)? {
        "14" => Ok(Failure::NoProposalChosen),
        "35" => Ok(Failure::NoAdditionalSas),
        "43" => Ok(Failure::TemporaryFailure),
        "44" => Ok(Failure::ChildSaNotFound {
            spi: read_spi(words)?,
        }),
        word => words.unexpected(word, expected),
    }
}

/// `spi N`.
fn read_spi(words: &mut Words<'_>) -> Result<u32, Stop> {
    words.keyword("spi")?;
    words.number("an SPI")
}

/// `nonce HEX`.
fn read_nonce(words: &mut Words<'_>) -> Result<Nonce, Stop> {
    words.keyword("nonce")?;
    words.nonce("a nonce")
}
