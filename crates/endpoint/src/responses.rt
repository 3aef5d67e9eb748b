//! What an end does with the response to its outstanding request.
ghost use Rattle.std.specs.Prelude.{◌≡◌, ◌<◌, ◌^◌, true, Some, None};
ghost use Rattle.std.specs.Option.{option_map};
ghost use Rattle.nonce.specs.Nonces.{nonce_long};
ghost use Rattle.book.specs.Rows.{kept_octets};
ghost use Rattle.book.specs.Shelves.{lookup};
ghost use Rattle.law.specs.Asks.{closing};
ghost use Rattle.law.specs.Deliveries.{response_heard};
ghost use Rattle.law.specs.Responses.{rests, goes_on, loses, create_made};
ghost use Rattle.law.specs.Rows.{without};
ghost use Rattle.endpoint.specs.Reactions.{heard_by, Stays};
ghost use Rattle.endpoint.specs.Settlings.{SettledAs, collision_in, remade, IsOutstanding};

use crate::Endpoint;
use crate::reaction::{Reaction, Says};
use crate::rows::{in_state, made_row};
use book::Book;
use book::row::{Row, RowState};
use calls::refusals::DeliverRefusal;
use law::kinds::Kind;
use nonce::Nonce;
use nonce::order::Exchanged;
use nonce::order::compare::loser;
use nonce::side::Side;
use wire::message::{Failure, Request, Response};

impl<B: Book> Endpoint<B> {
    /// The end is quiet.
    fn rest(&mut self) -> Says
        ensures { SettledAs (rests self.old self.old.shelf) result self.new }
    {
        self.outstanding = None;
        self.collision = None;
        Says::Nothing
    }

    /// The row of this own SPI is dropped, and the end is quiet.
    fn drop_row(&mut self, own: u32) -> Says
        ensures { SettledAs (rests self.old (without self.old.shelf own)) result self.new }
    {
        self.discard(own);
        self.rest()
    }

    /// The row is Closing, and its Delete goes out.
    fn close(&mut self, row: Row) -> Says
        requires left { self.old.next < 2 ^ 32 }
        requires long { nonce_long (kept_octets row.ni) ≡ true }
        ensures { SettledAs (goes_on (closing self.old row self.old.shelf)) result self.new }
    {
        self.rewrite(in_state(row, RowState::Closing));
        self.ask(Kind::Delete, row.own, 0, Request::Delete { spi: row.own });
        Says::Request
    }

    /// Whether the new SA of this end's rekey, which has this row, is the loser of a recorded collision.
    fn loses(&self, row: &Row, nr: &Nonce) -> bool
        requires { nonce_long (kept_octets row.now.ni) ≡ true }
        ensures { result ≡ loses self.now.side row.now nr.now (collision_in self.now.outstanding) }
    {
        let Some(theirs) = self.collision else {
            return false;
        };
        let ours = Exchanged {
            initiator: row.ni.nonce().unwrap(),
            responder: *nr,
        };
        match self.side {
            Side::A => loser(&ours, &theirs) == Side::A,
            Side::B => loser(&theirs, &ours) == Side::B,
        }
    }

    /// The Opening row of a create stands.
    fn stand(&mut self, own: u32, peer: u32, nr: &Nonce) -> Says
        ensures { SettledAs (create_made self.old peer nr.now (lookup self.old.shelf.rows own)) result self.new }
    {
        if let Some(row) = self.row(own) {
            self.rewrite(made_row(row, peer, nr));
        }
        self.rest()
    }

    /// The Opening row of a rekey stands; then it is closed, if it is the loser of a collision, else the old row, if it is
    /// still there.
    fn replace(&mut self, own: u32, old: u32, peer: u32, nr: &Nonce) -> Says
        requires left { self.old.next < 2 ^ 32 }
        requires these { IsOutstanding self.old.outstanding own old }
        ensures { SettledAs (remade self.old own peer nr.now self.old.outstanding) result self.new }
    {
        let Some(row) = self.row(own) else {
            return self.rest();
        };
        let row = made_row(row, peer, nr);
        self.rewrite(row);
        let closed = if self.loses(&row, nr) {
            Some(row)
        } else {
            self.row(old)
        };
        match closed {
            Some(row) => self.close(row),
            None => self.rest(),
        }
    }

    /// What a response does depends on the outstanding request and on the response together.
    #[tactic(auto, unfolding(law::specs::Responses::settled))]
    pub(crate) fn hear_response(&mut self, id: u32, response: Response<Nonce>) -> Reaction
        ensures heard { response_heard self.old self.old.outstanding id response ≡ heard_by result self.new }
        ensures stays { Stays result self.old self.new }
        ensures side { self.new.side ≡ self.old.side }
    {
        let outstanding = self.outstanding.filter(|o| o.id == id);
        let says = match (outstanding.map(|o| (o.kind, o)), response) {
            (None, _) => return Reaction::Refused(DeliverRefusal::WrongId),
            (Some((Kind::Create, o)), Response::NewSa { spi, nonce }) if !self.is_unusable(spi) => {
                self.stand(o.own, spi, &nonce)
            }
            (Some((Kind::Rekey, o)), Response::NewSa { spi, nonce }) if !self.is_unusable(spi) => {
                self.replace(o.own, o.old, spi, &nonce)
            }
            (Some((Kind::Rekey, o)), Response::Failed(Failure::ChildSaNotFound { .. })) => {
                self.discard(o.own);
                self.drop_row(o.old)
            }
            (Some((Kind::Check, _)), _) => self.rest(),
            (Some((_, o)), _) => self.drop_row(o.own),
        };
        Reaction::Done(says)
    }
}
