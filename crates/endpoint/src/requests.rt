//! What an end does with a request of the peer.
ghost use Rattle.std.specs.Prelude.{◌≡◌, ◌<◌, ◌≤◌, ◌^◌, ◌||◌, suc, false, true, IfSome};
ghost use Rattle.nonce.specs.Nonces.{nonce_long};
ghost use Rattle.book.specs.Rows.{kept_octets};
ghost use Rattle.law.specs.Ends.{replying};
ghost use Rattle.law.specs.Deliveries.{request_heard};
ghost use Rattle.law.specs.Requests.{found, unusable, no_more, making, create_answered, rekey_found, superseding, delete_found, request_answered};
ghost use Rattle.endpoint.specs.Reactions.{heard_by, Stays};
ghost use Rattle.endpoint.specs.Replies.{IsSaid, recording};

use crate::Endpoint;
use crate::calm::calm;
use crate::outstanding::Outstanding;
use crate::reaction::{Reaction, Says};
use crate::rows::{fresh_row, in_state};
use book::Book;
use book::row::{Row, RowState, Spis};
use calls::refusals::DeliverRefusal;
use law::kinds::Kind;
use nonce::Nonce;
use nonce::order::Exchanged;
use nonce::spi::LOWEST_SPI;
use wire::message::{Body, Failure, Message, Request, Response};

impl<B: Book> Endpoint<B> {
    /// The reply to the expected request, which is stored; the next is expected.
    fn reply(&mut self, response: Response<Nonce>)
        requires { self.old.expected < 2 ^ 32 }
        ensures { self.new ≡ replying self.old self.old.shelf self.old.spi self.old.outstanding response }
    {
        let message = Message {
            initiator: self.initiator,
            responder: self.responder,
            sender: self.side,
            id: self.expected as u32,
            body: Body::Response(response),
        };
        self.reply = Some(message.octets());
        self.expected += 1;
    }

    /// There is no new SA, for this reason.
    fn fail(&mut self, failure: Failure)
        requires { self.old.expected < 2 ^ 32 }
        ensures { self.new ≡ replying self.old self.old.shelf self.old.spi self.old.outstanding (Response.Failed failure) }
    {
        self.reply(Response::Failed(failure));
    }

    /// The row that has a peer SPI.
    fn found(&self, peer: u32) -> Option<Row>
        ensures value { result ≡ found self.now.shelf.rows peer }
        ensures long { IfSome result (λ r. nonce_long (kept_octets r.ni) ≡ true) }
    {
        self.row(self.book.find(peer)?)
    }

    /// Whether an SPI of the peer is reserved, or already names an SA.
    pub(crate) fn is_unusable(&self, peer: u32) -> bool
        ensures { result ≡ unusable self.now.shelf.rows peer }
    {
        peer < LOWEST_SPI || self.book.find(peer).is_some()
    }

    /// Whether there is no room in the book, or no own SPI.
    fn has_no_more(&self) -> bool
        ensures { result ≡ no_more self.now self.now.shelf }
    {
        self.is_full() || self.has_no_spi()
    }

    /// A new SA for the peer, with a nonce of this end.
    fn make(&mut self, peer: u32, parent: Spis, ni: &Nonce, nr: &Nonce)
        requires id { self.old.expected < 2 ^ 32 }
        requires spi { self.old.spi < 2 ^ 32 }
        ensures { IsSaid (making self.old self.old.shelf peer ni.now nr.now parent self.old.outstanding) self.new }
    {
        let own = self.spi as u32;
        self.file(fresh_row(own, peer, parent, ni, nr));
        self.reply(Response::NewSa {
            spi: own,
            nonce: *nr,
        });
    }

    /// The answer to a create, with the nonces of the peer and of this end.
    fn answer_create(&mut self, peer: u32, ni: &Nonce, nr: &Nonce)
        requires { self.old.expected < 2 ^ 32 }
        ensures { IsSaid (create_answered self.old self.old.shelf peer ni.now nr.now) self.new }
    {
        if self.is_unusable(peer) {
            self.fail(Failure::NoProposalChosen);
        } else if self.has_no_more() {
            self.fail(Failure::NoAdditionalSas);
        } else {
            self.make(peer, Spis::default(), ni, nr);
        }
    }

    /// An own rekey of the SA of this own SPI that is outstanding records a collision with the peer's.
    fn record(&mut self, own: u32, ni: &Nonce, nr: &Nonce)
        ensures { self.new ≡ recording self.old own ni.now nr.now }
    {
        if let Some(
            Outstanding {
                kind: Kind::Rekey,
                old,
                ..
            },
        ) = self.outstanding
            && old == own
        {
            self.collision = Some(Exchanged {
                initiator: *ni,
                responder: *nr,
            });
        }
    }

    /// The row is Superseded, by a new SA for the peer.
    fn supersede(&mut self, row: Row, peer: u32, ni: &Nonce, nr: &Nonce)
        requires id { self.old.expected < 2 ^ 32 }
        requires spi { self.old.spi < 2 ^ 32 }
        requires long { nonce_long (kept_octets row.ni) ≡ true }
        ensures { IsSaid (superseding self.old self.old.shelf peer ni.now nr.now row) self.new }
    {
        let parent = Spis {
            own: row.own,
            peer: row.peer,
        };
        self.rewrite(in_state(row, RowState::Superseded));
        self.record(parent.own, ni, nr);
        self.make(peer, parent, ni, nr);
    }

    /// The answer to a rekey of the SA that the peer knows as `old`.
    fn answer_rekey(&mut self, old: u32, peer: u32, ni: &Nonce, nr: &Nonce)
        requires { self.old.expected < 2 ^ 32 }
        ensures { IsSaid (rekey_found self.old self.old.shelf old peer ni.now nr.now (found self.old.shelf.rows old)) self.new }
    {
        match self.found(old) {
            None => self.fail(Failure::ChildSaNotFound { spi: old }),
            Some(row) if matches!(row.state, RowState::Superseded | RowState::Closing) => {
                self.fail(Failure::TemporaryFailure);
            }
            Some(_) if self.is_unusable(peer) => self.fail(Failure::NoProposalChosen),
            Some(_) if self.has_no_more() => self.fail(Failure::NoAdditionalSas),
            Some(row) => self.supersede(row, peer, ni, nr),
        }
    }

    /// The answer to a Delete of the SA that the peer knows by this SPI.
    fn answer_delete(&mut self, peer: u32)
        requires { self.old.expected < 2 ^ 32 }
        ensures { IsSaid (delete_found self.old self.old.shelf (found self.old.shelf.rows peer)) self.new }
    {
        match self.found(peer) {
            // a Closing row stays: its own Delete is on its way
            Some(row) if row.state != RowState::Closing => {
                self.discard(row.own);
                self.reply(Response::Delete { spi: row.own });
            }
            _ => self.reply(Response::Empty),
        }
    }

    /// The first line that applies decides.
    fn answer(&mut self, request: Request<Nonce>, nr: &Nonce)
        requires { self.old.expected < 2 ^ 32 }
        ensures { IsSaid (request_answered self.old self.old.shelf nr.now request) self.new }
    {
        match request {
            Request::Create { spi, nonce } => self.answer_create(spi, &nonce, nr),
            Request::Rekey { old, spi, nonce } => self.answer_rekey(old, spi, &nonce, nr),
            Request::Delete { spi } => self.answer_delete(spi),
            Request::Empty => self.reply(Response::Empty),
        }
    }

    /// A request of the peer: the expected one is answered; the one before it gets the stored reply again.
    #[tactic(auto, using(crate::proofs::Nonces::nonces_calm), unfolding(law::specs::Requests::answered))]
    pub(crate) fn hear_request(&mut self, id: u32, request: Request<Nonce>, nr: &Nonce) -> Reaction
        ensures heard { request_heard self.old nr.now id request ≡ heard_by result self.new }
        ensures stays { Stays result self.old self.new }
        ensures side { self.new.side ≡ self.old.side }
    {
        let id = u64::from(id);
        if id == self.expected {
            calm(&mut self.book);
            self.answer(request, nr);
            return Reaction::Done(Says::Reply);
        }
        if id + 1 == self.expected && self.reply.is_some() {
            return Reaction::Again;
        }
        Reaction::Refused(DeliverRefusal::WrongId)
    }
}
