//! A message whose nonce has a place of its own.
ghost use Rattle.std.specs.Prelude.{◌≡◌, ◌≤◌, length};
ghost use Rattle.wire.specs.Messages.{plain, plain_body, plain_request, plain_response};
ghost use Rattle.wire.specs.Exact.{ValidBody, ValidRequest, ValidResponse};

use nonce::Nonce;
use wire::message::{Body, Message, Request, Response};

/// The nonce of 16 to 32 octets.
fn nonce_of(octets: &[u8]) -> Nonce
    requires least { 16 ≤ length octets.now }
    requires most { length octets.now ≤ 32 }
    ensures { result ≡ octets.now }
{
    Nonce::new(octets).unwrap()
}

/// The same request, its nonce in a place of its own.
fn request_of(request: Request<&[u8]>) -> Request<Nonce>
    requires { ValidRequest (plain_request (λ n. n.now) request) }
    ensures { result ≡ plain_request (λ n. n.now) request.entry }
{
    match request {
        Request::Create { spi, nonce } => Request::Create {
            spi,
            nonce: nonce_of(nonce),
        },
        Request::Rekey { old, spi, nonce } => Request::Rekey {
            old,
            spi,
            nonce: nonce_of(nonce),
        },
        Request::Delete { spi } => Request::Delete { spi },
        Request::Empty => Request::Empty,
    }
}

/// The same response, its nonce in a place of its own.
fn response_of(response: Response<&[u8]>) -> Response<Nonce>
    requires { ValidResponse (plain_response (λ n. n.now) response) }
    ensures { result ≡ plain_response (λ n. n.now) response.entry }
{
    match response {
        Response::NewSa { spi, nonce } => Response::NewSa {
            spi,
            nonce: nonce_of(nonce),
        },
        Response::Failed(failure) => Response::Failed(failure),
        Response::Delete { spi } => Response::Delete { spi },
        Response::Empty => Response::Empty,
    }
}

/// The same message, held without the datagram that it came in.
pub(crate) fn owned(message: Message<&[u8]>) -> Message<Nonce>
    requires { ValidBody (plain_body (λ n. n.now) message.body) }
    ensures { result ≡ plain (λ n. n.now) message.entry }
{
    let body = match message.body {
        Body::Request(request) => Body::Request(request_of(request)),
        Body::Response(response) => Body::Response(response_of(response)),
    };
    Message {
        initiator: message.initiator,
        responder: message.responder,
        sender: message.sender,
        id: message.id,
        body,
    }
}
