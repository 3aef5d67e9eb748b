//! How a message is read from the octets of a datagram.
ghost use Rattle.std.specs.Prelude.{◌≡◌, ◌≤◌, ◌&&◌, length};
ghost use Rattle.std.specs.Option.{ok_or};
ghost use Rattle.octets.specs.Numbers.{long};
ghost use Rattle.wire.specs.Decoding.{sized, header_in, offer_in, request_in, response_in, informational_in, body_in, decoded};
ghost use Rattle.wire.specs.Chains.{offered};
ghost use Rattle.wire.specs.Exact.{OneEncoding};
ghost use Rattle.wire.specs.Readings.{offer_read, request_read, response_read, body_read, message_read};

use crate::header::{Direction, Exchange, Flags, Header, VERSION};
use crate::message::{Body, DecodeRefusal, Message, Request, Response};
use crate::payload::{Chain, Offer, Payload};
use crate::table::{Naming, failure_in, named_in, sa_in, ts_body};
use octets::{u32_at, u64_at};

/// Whether there are 28 to 160 octets, as many as the header says.
fn is_sized(s: &[u8]) -> bool
    ensures { result ≡ sized s.now }
{
    (28..=160).contains(&s.len()) && u32_at(s, 24).is_some_and(|len| len as usize == s.len())
}

/// What the header of octets says that are long enough for one.
#[tactic(auto, unfolding(crate::specs::Decoding::header_in))]
fn header_of(s: &[u8]) -> Result<Header, DecodeRefusal>
    requires { 28 ≤ length s.now }
    ensures { result ≡ ok_or (header_in s.now) DecodeRefusal.Header }
{
    if s[17] != VERSION {
        return Err(DecodeRefusal::Header);
    }
    Ok(Header {
        initiator: u64_at(s, 0).ok_or(DecodeRefusal::Header)?,
        responder: u64_at(s, 8).ok_or(DecodeRefusal::Header)?,
        next: s[16],
        exchange: Exchange::try_from(s[18])?,
        flags: Flags::try_from(s[19])?,
        id: u32_at(s, 20).ok_or(DecodeRefusal::Header)?,
    })
}

/// The SPI and the nonce of an offer.
#[tactic(auto, unfolding(crate::specs::Decoding::offer_in))]
fn read_offer(offer: Offer<'_>) -> Result<(u32, &[u8]), DecodeRefusal>
    ensures { offer_read result ≡ offer_in (offered offer.entry) }
{
    let spi = sa_in(offer.sa).ok_or(DecodeRefusal::Payload)?;
    if !(16..=32).contains(&offer.nonce.len()) {
        return Err(DecodeRefusal::NonceLength);
    }
    let all = ts_body();
    if offer.tsi == all.as_slice() && offer.tsr == all.as_slice() {
        Ok((spi, offer.nonce))
    } else {
        Err(DecodeRefusal::Payload)
    }
}

/// The request of the exchange CREATE_CHILD_SA that a chain is.
#[tactic(auto, unfolding(crate::specs::Decoding::request_in))]
fn create_request(chain: Chain<'_>) -> Result<Request<&[u8]>, DecodeRefusal>
    ensures { request_read result ≡ request_in chain.entry.kind chain.entry.octets.now }
{
    if let Some(offer) = chain.whole_offer() {
        let (spi, nonce) = read_offer(offer)?;
        return Ok(Request::Create { spi, nonce });
    }
    let (notify, offer) = chain.whole_rekey().ok_or(DecodeRefusal::Chain)?;
    let old = named_in(Naming::Rekeyed, notify).ok_or(DecodeRefusal::Payload)?;
    let (spi, nonce) = read_offer(offer)?;
    Ok(Request::Rekey { old, spi, nonce })
}

/// The response of the exchange CREATE_CHILD_SA that a chain is.
#[tactic(auto, unfolding(crate::specs::Decoding::response_in))]
fn create_response(chain: Chain<'_>) -> Result<Response<&[u8]>, DecodeRefusal>
    ensures { response_read result ≡ response_in chain.entry.kind chain.entry.octets.now }
{
    if let Some(offer) = chain.whole_offer() {
        let (spi, nonce) = read_offer(offer)?;
        return Ok(Response::NewSa { spi, nonce });
    }
    // the pattern asks for the variant too, which `?` would not
    let Some(Payload::Notify(notify)) = chain.lone() else {
        return Err(DecodeRefusal::Chain);
    };
    let failure = failure_in(notify).ok_or(DecodeRefusal::Payload)?;
    Ok(Response::Failed(failure))
}

/// The SPI that a message of the exchange INFORMATIONAL deletes, or nothing where it is empty.
#[tactic(auto, unfolding(crate::specs::Decoding::informational_in))]
fn informational(chain: Chain<'_>) -> Result<Option<u32>, DecodeRefusal>
    ensures { result ≡ informational_in chain.entry.kind chain.entry.octets.now }
{
    if chain.ends() {
        return Ok(None);
    }
    // the pattern asks for the variant too, which `?` would not
    let Some(Payload::Delete(body)) = chain.lone() else {
        return Err(DecodeRefusal::Chain);
    };
    named_in(Naming::Deleted, body)
        .map(Some)
        .ok_or(DecodeRefusal::Payload)
}

/// What the payloads behind a header say.
fn body_of(header: Header, octets: &[u8]) -> Result<Body<&[u8]>, DecodeRefusal>
    ensures { body_read result ≡ body_in header.exchange header.flags.direction header.next octets.now }
{
    let chain = Chain {
        kind: header.next,
        octets,
    };
    match (header.exchange, header.flags.direction) {
        (Exchange::CreateChildSa, Direction::Asking) => create_request(chain).map(Body::Request),
        (Exchange::CreateChildSa, Direction::Answering) => {
            create_response(chain).map(Body::Response)
        }
        // two arms alike, since a request and a response are two types
        (Exchange::Informational, Direction::Asking) => {
            let deleted = informational(chain)?;
            let request = deleted.map_or(Request::Empty, |spi| Request::Delete { spi });
            Ok(Body::Request(request))
        }
        (Exchange::Informational, Direction::Answering) => {
            let deleted = informational(chain)?;
            let response = deleted.map_or(Response::Empty, |spi| Response::Delete { spi });
            Ok(Body::Response(response))
        }
    }
}

/// The message that these octets are, its nonce a part of them, or the first check that they fail.
#[tactic(auto, using(crate::proofs::Exactly::one_encoding), unfolding(crate::specs::Decoding::decoded))]
pub fn decode(s: &[u8]) -> Result<Message<&[u8]>, DecodeRefusal>
    ensures value { message_read result ≡ decoded s.now }
    ensures exact { OneEncoding }
{
    if !is_sized(s) {
        return Err(DecodeRefusal::Length);
    }
    let header = header_of(s)?;
    let body = body_of(header, s.split_at(28).1)?;
    Ok(Message {
        initiator: header.initiator,
        responder: header.responder,
        sender: header.flags.sender,
        id: header.id,
        body,
    })
}
