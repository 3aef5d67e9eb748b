//! What is asked of an end: create, rekey, delete, check and resend.
ghost use Rattle.std.specs.Prelude.{◌≡◌, ◌+◌, ◌≤◌, ◌^◌, suc};
ghost use Rattle.law.specs.Asks.{create_asked, rekey_asked, delete_asked, check_asked};
ghost use Rattle.law.specs.Effects.{Asks, Resends};
ghost use Rattle.law.specs.Ends.{sending};
ghost use Rattle.endpoint.specs.Begun.{Begun};
ghost use Rattle.endpoint.specs.Views.{kept_back};

use crate::Endpoint;
use crate::outstanding::Outstanding;
use crate::reaction::Says;
use crate::rows::{in_state, opening_row};
use book::Book;
use book::row::{RowState, Spis};
use calls::refusals::{AskRefusal, ResendRefusal};
use channel::channel::Channel;
use channel::sent::Sent;
use law::kinds::Kind;
use nonce::Nonce;
use wire::message::{Body, Message, Request};

impl<B: Book> Endpoint<B> {
    /// A request of this end is outstanding, under its next Message ID.
    pub(crate) fn ask(&mut self, kind: Kind, own: u32, old: u32, request: Request<Nonce>)
        requires { suc self.old.next + kept_back kind ≤ 2 ^ 32 }
        ensures { self.new ≡ sending self.old self.old.shelf self.old.spi kind own old request }
    {
        let id = self.next as u32;
        let message = Message {
            initiator: self.initiator,
            responder: self.responder,
            sender: self.side,
            id,
            body: Body::Request(request),
        };
        self.request = message.octets();
        self.outstanding = Some(Outstanding { id, kind, own, old });
        self.collision = None;
        self.next += 1;
    }

    /// An Opening row, and a create request.
    fn begin_create(&mut self, nonce: &[u8]) -> Result<(), AskRefusal>
        ensures { Begun (create_asked self.old nonce.now) result self.old self.new }
    {
        let nonce = self.may_create(nonce)?;
        let own = self.spi as u32;
        self.file(opening_row(own, Spis::default(), &nonce));
        self.ask(Kind::Create, own, 0, Request::Create { spi: own, nonce });
        Ok(())
    }

    /// An Opening row with the named SA as its parent, and a rekey request.
    fn begin_rekey(&mut self, own: u32, nonce: &[u8]) -> Result<(), AskRefusal>
        ensures { Begun (rekey_asked self.old own nonce.now) result self.old self.new }
    {
        let (nonce, row) = self.may_rekey(own, nonce)?;
        let spi = self.spi as u32;
        let parent = Spis {
            own: row.own,
            peer: row.peer,
        };
        let old = row.own;
        self.file(opening_row(spi, parent, &nonce));
        self.ask(Kind::Rekey, spi, old, Request::Rekey { old, spi, nonce });
        Ok(())
    }

    /// The row is Closing, and its Delete is outstanding.
    fn begin_delete(&mut self, own: u32) -> Result<(), AskRefusal>
        ensures { Begun (delete_asked self.old own) result self.old self.new }
    {
        let row = self.may_delete(own)?;
        self.rewrite(in_state(row, RowState::Closing));
        self.ask(Kind::Delete, row.own, 0, Request::Delete { spi: row.own });
        Ok(())
    }

    /// An empty request.
    fn begin_check(&mut self) -> Result<(), AskRefusal>
        ensures { Begun (check_asked self.old) result self.old self.new }
    {
        self.may_check()?;
        self.ask(Kind::Check, 0, 0, Request::Empty);
        Ok(())
    }

    /// Asks the peer for a new SA, with this nonce.
    pub fn create<C: Channel>(&mut self, channel: &mut C, nonce: &[u8]) -> Result<Sent, AskRefusal>
        ensures { Asks C.Channel.behaviour self.old channel.old (create_asked self.old nonce.now) result self.new channel.new }
    {
        self.begin_create(nonce)?;
        Ok(self.say(Says::Request, channel))
    }

    /// Asks the peer for a new SA in the place of the one of this own SPI, with this nonce.
    pub fn rekey<C: Channel>(
        &mut self,
        channel: &mut C,
        own: u32,
        nonce: &[u8],
    ) -> Result<Sent, AskRefusal>
        ensures { Asks C.Channel.behaviour self.old channel.old (rekey_asked self.old own nonce.now) result self.new channel.new }
    {
        self.begin_rekey(own, nonce)?;
        Ok(self.say(Says::Request, channel))
    }

    /// Asks the peer to end the SA of this own SPI.
    pub fn delete<C: Channel>(&mut self, channel: &mut C, own: u32) -> Result<Sent, AskRefusal>
        ensures { Asks C.Channel.behaviour self.old channel.old (delete_asked self.old own) result self.new channel.new }
    {
        self.begin_delete(own)?;
        Ok(self.say(Says::Request, channel))
    }

    /// Asks the peer for nothing but an answer.
    pub fn check<C: Channel>(&mut self, channel: &mut C) -> Result<Sent, AskRefusal>
        ensures { Asks C.Channel.behaviour self.old channel.old (check_asked self.old) result self.new channel.new }
    {
        self.begin_check()?;
        Ok(self.say(Says::Request, channel))
    }

    /// Sends the outstanding request once more.
    pub fn resend<C: Channel>(&self, channel: &mut C) -> Result<Sent, ResendRefusal>
        ensures { Resends C.Channel.behaviour self.now channel.old result self.now channel.new }
    {
        if self.outstanding.is_none() {
            return Err(ResendRefusal::Quiet);
        }
        Ok(self.say(Says::Request, channel))
    }
}
