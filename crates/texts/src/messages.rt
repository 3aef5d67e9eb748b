//! What a message says, in the words that a script has for one.
ghost use Rattle.std.specs.Prelude.{Some};
ghost use Rattle.wire.specs.Messages.{plain, plain_request, plain_response};
ghost use Rattle.texts.specs.Messages.{ike_text, request_text, response_text, message_text};

use crate::digits::Hex;
use crate::told::Told;
use std::fmt;
use wire::message::{Body, Failure, Message, Request, Response};

impl fmt::Display for Told<Message<&[u8]>> {
    ghost output = { λ t. Some (message_text (plain (λ n. n.now) t.0)) };

    fn fmt<W: fmt::Write>(&self, f: &mut fmt::Formatter<W>) -> fmt::Result {
        let message = &self.0;
        let a = IkeSpi(message.initiator);
        let b = IkeSpi(message.responder);
        let sender = message.sender;
        let id = message.id;
        match message.body {
            Body::Request(request) => {
                let request = Told(request);
                write!(f, "ike {a} {b} {sender} request {id} {request}")
            }
            Body::Response(response) => {
                let response = Told(response);
                write!(f, "ike {a} {b} {sender} response {id} {response}")
            }
        }
    }
}

/// An SPI of the IKE SA: its eight octets.
#[derive(Clone, Copy)]
struct IkeSpi(u64);

impl fmt::Display for IkeSpi {
    ghost output = { λ s. Some (ike_text s.0) };

    fn fmt<W: fmt::Write>(&self, f: &mut fmt::Formatter<W>) -> fmt::Result {
        Hex(&self.0.to_be_bytes()).fmt(f)
    }
}

impl fmt::Display for Told<Request<&[u8]>> {
    ghost output = { λ t. Some (request_text (plain_request (λ n. n.now) t.0)) };

    fn fmt<W: fmt::Write>(&self, f: &mut fmt::Formatter<W>) -> fmt::Result {
        match self.0 {
            Request::Create { spi, nonce } => {
                let nonce = Hex(nonce);
                write!(f, "create spi {spi} nonce {nonce}")
            }
            Request::Rekey { old, spi, nonce } => {
                let nonce = Hex(nonce);
                write!(f, "rekey old {old} spi {spi} nonce {nonce}")
            }
            Request::Delete { spi } => write!(f, "delete spi {spi}"),
            Request::Empty => write!(f, "empty"),
        }
    }
}

impl fmt::Display for Told<Response<&[u8]>> {
    ghost output = { λ t. Some (response_text (plain_response (λ n. n.now) t.0)) };

    fn fmt<W: fmt::Write>(&self, f: &mut fmt::Formatter<W>) -> fmt::Result {
        match self.0 {
            Response::NewSa { spi, nonce } => {
                let nonce = Hex(nonce);
                write!(f, "new spi {spi} nonce {nonce}")
            }
            Response::Failed(Failure::NoProposalChosen) => write!(f, "notify 14"),
            Response::Failed(Failure::NoAdditionalSas) => write!(f, "notify 35"),
            Response::Failed(Failure::TemporaryFailure) => write!(f, "notify 43"),
            Response::Failed(Failure::ChildSaNotFound { spi }) => write!(f, "notify 44 spi {spi}"),
            Response::Delete { spi } => write!(f, "delete spi {spi}"),
            Response::Empty => write!(f, "empty"),
        }
    }
}
