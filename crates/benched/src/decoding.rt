//! Messages read.
ghost use Rattle.std.specs.Prelude.{◌≡◌};
ghost use Rattle.wire.specs.Decoding.{decoded};
ghost use Rattle.wire.specs.Messages.{plain_body, plain_request, plain_response};
ghost use Rattle.benched.specs.Messages.{offered, failure_number, request_number, response_number, body_number, read_number};

use crate::mixed::{last, mixed};
use numbered::Numbered;
use wire::decode::decode;
use wire::message::{Body, Failure, Request, Response};

/// A number made of an SPI and a nonce.
fn offered(spi: u32, nonce: &[u8]) -> u64
    ensures { result ≡ offered spi nonce.now }
{
    mixed(mixed(u64::from(spi), nonce.len() as u64), last(nonce))
}

fn failure_number(failure: Failure) -> u64
    ensures { result ≡ failure_number failure }
{
    match failure {
        Failure::ChildSaNotFound { spi } => mixed(44, u64::from(spi)),
        _ => 6,
    }
}

fn request_number(request: Request<&[u8]>) -> u64
    ensures { result ≡ request_number (plain_request (λ n. n.now) request.entry) }
{
    match request {
        Request::Create { spi, nonce } => mixed(1, offered(spi, nonce)),
        Request::Rekey { old, spi, nonce } => {
            mixed(mixed(2, u64::from(old)), offered(spi, nonce))
        }
        Request::Delete { spi } => mixed(3, u64::from(spi)),
        Request::Empty => 4,
    }
}

fn response_number(response: Response<&[u8]>) -> u64
    ensures { result ≡ response_number (plain_response (λ n. n.now) response.entry) }
{
    match response {
        Response::NewSa { spi, nonce } => mixed(5, offered(spi, nonce)),
        Response::Failed(failure) => failure_number(failure),
        Response::Delete { spi } => mixed(7, u64::from(spi)),
        Response::Empty => 8,
    }
}

/// A number made of a body.
fn body_number(body: Body<&[u8]>) -> u64
    ensures { result ≡ body_number (plain_body (λ n. n.now) body.entry) }
{
    match body {
        Body::Request(request) => request_number(request),
        Body::Response(response) => response_number(response),
    }
}

/// Reads one message: a number made of it, or that of the refusal.
#[unsafe(no_mangle)]
pub extern "C" fn benched_decode(octets: &[u8]) -> u64
    ensures { result ≡ read_number (decoded octets.now) }
{
    match decode(octets) {
        Ok(message) => mixed(u64::from(message.id), body_number(message.body)),
        Err(refusal) => u64::from(refusal.number()),
    }
}
