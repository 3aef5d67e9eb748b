//! A message as a plain record, as C has it.
ghost use Rattle.std.specs.Prelude.{◌≡◌, ◌≤◌, length};
ghost use Rattle.wire.specs.Exact.{ValidBody, ValidRequest, ValidResponse};
ghost use Rattle.wire.specs.Messages.{plain, plain_body, plain_request, plain_response};
ghost use Rattle.exported.specs.Records.{side_number, said, plainly, failure_told, request_says, response_says, body_says, record_of};

use crate::padded::padded;
use nonce::side::Side;
use wire::message::{Body, Failure, Message, Request, Response};

/// A message in numbers. What its kind has not is 0.
#[repr(C)]
#[derive(Clone, Copy)]
pub struct Record {
    /// The IKE SPI of A.
    pub initiator: u64,
    /// The IKE SPI of B.
    pub responder: u64,
    /// The Message ID.
    pub id: u32,
    /// The sender's SPI of a new SA, or the SPI that is deleted or not found.
    pub spi: u32,
    /// The sender's SPI of the SA to be rekeyed.
    pub rekeyed: u32,
    /// How many octets the nonce has.
    pub nonce_len: u32,
    /// Why there is no new SA: the type of the notification.
    pub failure: u16,
    /// Who sends it: 0 for A, 1 for B.
    pub sender: u8,
    /// 1 to 4: a request to create, to rekey or to delete, or an empty one; 5 to 8: a response with a new SA, with a failure,
    /// that deletes, or an empty one.
    pub kind: u8,
    /// The nonce, with zeros behind it.
    pub nonce: [u8; 32],
}

/// What a body says, in numbers.
#[derive(Clone, Copy)]
struct Says<'a> {
    kind: u8,
    spi: u32,
    rekeyed: u32,
    failure: u16,
    nonce: &'a [u8],
}

/// The number of an end.
pub(crate) fn side_number(side: Side) -> u8
    ensures { result ≡ side_number side }
{
    match side {
        Side::A => 0,
        Side::B => 1,
    }
}

/// What is said by a body with no nonce and no more than one SPI.
fn plainly<'a>(kind: u8, spi: u32, failure: u16) -> Says<'a>
    ensures value { said result ≡ plainly kind spi failure }
    ensures short { length result.nonce.now ≤ 32 }
{
    Says {
        kind,
        spi,
        rekeyed: 0,
        failure,
        nonce: &[],
    }
}

fn failure_says<'a>(failure: Failure) -> Says<'a>
    ensures value { said result ≡ failure_told failure }
    ensures short { length result.nonce.now ≤ 32 }
{
    plainly(6, failure.spi(), failure.number())
}

fn request_says(request: Request<&[u8]>) -> Says<'_>
    requires { ValidRequest (plain_request (λ n. n.now) request) }
    ensures value { said result ≡ request_says (plain_request (λ n. n.now) request.entry) }
    ensures short { length result.nonce.now ≤ 32 }
{
    match request {
        Request::Create { spi, nonce } => Says {
            kind: 1,
            spi,
            rekeyed: 0,
            failure: 0,
            nonce,
        },
        Request::Rekey { old, spi, nonce } => Says {
            kind: 2,
            spi,
            rekeyed: old,
            failure: 0,
            nonce,
        },
        Request::Delete { spi } => plainly(3, spi, 0),
        Request::Empty => plainly(4, 0, 0),
    }
}

fn response_says(response: Response<&[u8]>) -> Says<'_>
    requires { ValidResponse (plain_response (λ n. n.now) response) }
    ensures value { said result ≡ response_says (plain_response (λ n. n.now) response.entry) }
    ensures short { length result.nonce.now ≤ 32 }
{
    match response {
        Response::NewSa { spi, nonce } => Says {
            kind: 5,
            spi,
            rekeyed: 0,
            failure: 0,
            nonce,
        },
        Response::Failed(failure) => failure_says(failure),
        Response::Delete { spi } => plainly(7, spi, 0),
        Response::Empty => plainly(8, 0, 0),
    }
}

fn body_says(body: Body<&[u8]>) -> Says<'_>
    requires { ValidBody (plain_body (λ n. n.now) body) }
    ensures value { said result ≡ body_says (plain_body (λ n. n.now) body.entry) }
    ensures short { length result.nonce.now ≤ 32 }
{
    match body {
        Body::Request(request) => request_says(request),
        Body::Response(response) => response_says(response),
    }
}

/// The record of a message.
pub(crate) fn recorded(message: Message<&[u8]>) -> Record
    requires { ValidBody (plain_body (λ n. n.now) message.body) }
    ensures { result ≡ record_of (plain (λ n. n.now) message.entry) }
{
    let Says {
        kind,
        spi,
        rekeyed,
        failure,
        nonce,
    } = body_says(message.body);
    Record {
        initiator: message.initiator,
        responder: message.responder,
        id: message.id,
        spi,
        rekeyed,
        nonce_len: nonce.len() as u32,
        failure,
        sender: side_number(message.sender),
        kind,
        nonce: padded(nonce),
    }
}
