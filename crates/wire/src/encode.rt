//! How a message is written as octets.
ghost use Rattle.std.specs.Prelude.{◌≡◌, ℕ, ◌+◌, ◌≤◌, ◌++◌, length, drop};
ghost use Rattle.wire.specs.Encoding.{placed, written, overwritten};
ghost use Rattle.wire.specs.Exact.{ValidOffer, ValidBody, Valid};
ghost use Rattle.wire.specs.Messages.{offer_parts, parts_of, first_type, announced, chain, exchange_number, exchange_of, direction_flag, response_flag, kinds, octets_of};

use crate::header::{Direction, Exchange, Flags, VERSION};
use crate::message::{Body, EncodeRefusal, Message, Request, Response};
use crate::payload::{PayloadType, announced};
use crate::table::{Naming, failure_body, naming_body, sa_body, ts_body};
use crate::text::{payload_len, push, put, put_payload};
use arrayvec::ArrayVec;
use nonce::Nonce;
use nonce::side::Side;

/// How many octets the payloads of an offer have.
#[tactic(auto, unfolding(crate::specs::Payloads::sa_body, crate::specs::Payloads::ts_body))]
fn offer_len(spi: u32, nonce: &Nonce) -> usize
    ensures len { result ≡ length (chain (offer_parts spi nonce.now)) }
    ensures most { result ≤ 120 }
    ensures valid { ValidOffer spi nonce.now }
{
    let selectors = 2 * payload_len(&ts_body());
    payload_len(&sa_body(spi)) + payload_len(nonce.as_slice()) + selectors
}

/// How many octets the payloads of a message have.
#[tactic(auto, unfolding(crate::specs::Payloads::rekey_body, crate::specs::Payloads::delete_body))]
fn payloads_len(body: &Body<Nonce>) -> usize
    ensures len { result ≡ length (chain (parts_of body.now)) }
    ensures most { result ≤ 132 }
    ensures valid { ValidBody body.now }
{
    match body {
        Body::Request(Request::Create { spi, nonce })
        | Body::Response(Response::NewSa { spi, nonce }) => offer_len(*spi, nonce),
        Body::Request(Request::Rekey { old, spi, nonce }) => {
            payload_len(&naming_body(Naming::Rekeyed, *old)) + offer_len(*spi, nonce)
        }
        Body::Response(Response::Failed(failure)) => {
            payload_len(failure_body(*failure).as_slice())
        }
        Body::Request(Request::Delete { spi }) | Body::Response(Response::Delete { spi }) => {
            payload_len(&naming_body(Naming::Deleted, *spi))
        }
        Body::Request(Request::Empty) | Body::Response(Response::Empty) => 0,
    }
}

/// Puts the payloads of an offer at a place: SA, Nonce, TSi and TSr.
fn put_offer(out: &mut [u8], at: usize, spi: u32, nonce: &Nonce)
    requires { at + length (chain (offer_parts spi nonce.now)) ≤ length out.old }
    ensures { out.new ≡ placed at (chain (offer_parts spi nonce.now)) out.old }
{
    let at = put_payload(out, at, Some(PayloadType::Nonce), &sa_body(spi));
    let at = put_payload(out, at, Some(PayloadType::TsInitiator), nonce.as_slice());
    let at = put_payload(out, at, Some(PayloadType::TsResponder), &ts_body());
    put_payload(out, at, None, &ts_body());
}

/// Puts the payloads of a message behind the header.
fn put_payloads(out: &mut [u8], body: &Body<Nonce>)
    requires { 28 + length (chain (parts_of body.now)) ≤ length out.old }
    ensures { out.new ≡ placed 28 (chain (parts_of body.now)) out.old }
{
    match body {
        Body::Request(Request::Create { spi, nonce })
        | Body::Response(Response::NewSa { spi, nonce }) => put_offer(out, 28, *spi, nonce),
        Body::Request(Request::Rekey { old, spi, nonce }) => {
            let rekeyed = naming_body(Naming::Rekeyed, *old);
            let at = put_payload(out, 28, Some(PayloadType::Sa), &rekeyed);
            put_offer(out, at, *spi, nonce);
        }
        Body::Response(Response::Failed(failure)) => {
            put_payload(out, 28, None, failure_body(*failure).as_slice());
        }
        Body::Request(Request::Delete { spi }) | Body::Response(Response::Delete { spi }) => {
            put_payload(out, 28, None, &naming_body(Naming::Deleted, *spi));
        }
        Body::Request(Request::Empty) | Body::Response(Response::Empty) => {}
    }
}

/// The type of the first payload of a message, if it has one.
fn first_of(body: &Body<Nonce>) -> Option<PayloadType>
    ensures { announced result ≡ first_type (parts_of body.now) }
{
    match body {
        Body::Request(Request::Create { .. }) | Body::Response(Response::NewSa { .. }) => {
            Some(PayloadType::Sa)
        }
        Body::Request(Request::Rekey { .. }) | Body::Response(Response::Failed(_)) => {
            Some(PayloadType::Notify)
        }
        Body::Request(Request::Delete { .. }) | Body::Response(Response::Delete { .. }) => {
            Some(PayloadType::Delete)
        }
        Body::Request(Request::Empty) | Body::Response(Response::Empty) => None,
    }
}

/// The exchange of a message.
fn exchange_of(body: &Body<Nonce>) -> Exchange
    ensures { exchange_number result ≡ exchange_of body.now }
{
    match body {
        Body::Request(Request::Create { .. } | Request::Rekey { .. })
        | Body::Response(Response::NewSa { .. } | Response::Failed(_)) => Exchange::CreateChildSa,
        Body::Request(Request::Delete { .. } | Request::Empty)
        | Body::Response(Response::Delete { .. } | Response::Empty) => Exchange::Informational,
    }
}

/// Whether a message asks or answers.
fn direction_of(body: &Body<Nonce>) -> Direction
    ensures { direction_flag result ≡ response_flag body.now }
{
    match body {
        Body::Request(_) => Direction::Asking,
        Body::Response(_) => Direction::Answering,
    }
}

/// The four octets of the header from the type of the first payload to the flags.
fn kinds_of(sender: Side, body: &Body<Nonce>) -> [u8; 4]
    ensures { result ≡ kinds sender body.now }
{
    let flags = Flags {
        sender,
        direction: direction_of(body),
    };
    [
        announced(first_of(body)),
        VERSION,
        exchange_of(body) as u8,
        flags.into(),
    ]
}

/// Room for the octets of any message.
pub type Octets = ArrayVec<u8, 160>;

impl Message<Nonce> {
    /// How many octets the message has.
    fn len(&self) -> usize
        ensures len { result ≡ length (octets_of self.now) }
        ensures most { result ≤ 160 }
        ensures valid { Valid self.now }
    {
        // read, so that they are known to fit their fields
        let _initiator = self.initiator;
        let _responder = self.responder;
        let _id = self.id;
        28 + payloads_len(&self.body)
    }

    /// Puts the message at the front of a buffer that has room for it. `len` is how many octets it has.
    fn put(&self, len: usize, out: &mut [u8])
        requires len { len ≡ length (octets_of self.now) }
        requires most { len ≤ 160 }
        requires room { len ≤ length out.old }
        ensures { out.new ≡ octets_of self.now ++ drop len out.old }
    {
        put(out, 0, &self.initiator.to_be_bytes());
        put(out, 8, &self.responder.to_be_bytes());
        put(out, 16, &kinds_of(self.sender, &self.body));
        put(out, 20, &self.id.to_be_bytes());
        put(out, 24, &(len as u32).to_be_bytes());
        put_payloads(out, &self.body);
    }

    /// The octets of the message.
    pub fn octets(&self) -> Octets
        ensures octets { result.items ≡ octets_of self.now }
        ensures valid { Valid self.now }
    {
        let len = self.len();
        let mut room = [0; 160];
        self.put(len, &mut room);
        let mut text = ArrayVec::new();
        push(&mut text, &room[0..len]);
        text
    }

    /// Writes the message to the front of a buffer and says how many octets it has, or refuses where the buffer is too
    /// short for it. Octets behind it, and the whole buffer at a refusal, stay as they were.
    #[tactic(auto, unfolding(crate::specs::Encoding::written, crate::specs::Encoding::overwritten))]
    pub fn encode(&self, out: &mut [u8]) -> Result<usize, EncodeRefusal>
        ensures answer { result ≡ written self.now out.old }
        ensures buffer { out.new ≡ overwritten self.now out.old }
        ensures valid { Valid self.now }
    {
        let len = self.len();
        if out.len() < len {
            return Err(EncodeRefusal::BufferTooShort);
        }
        self.put(len, out);
        Ok(len)
    }
}
