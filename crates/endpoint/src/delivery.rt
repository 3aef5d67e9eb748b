//! How an end takes a message from a channel.
ghost use Rattle.std.specs.Prelude.{◌≡◌, Some, Ok};
ghost use Rattle.law.specs.Deliveries.{is_from_peer, message_heard, heard};
ghost use Rattle.law.specs.Effects.{Delivers};
ghost use Rattle.endpoint.specs.Reactions.{heard_by, Stays};

use crate::Endpoint;
use crate::owned::owned;
use crate::reaction::{Reaction, Says};
use crate::sending::take;
use book::Book;
use calls::answers::Delivered;
use calls::refusals::DeliverRefusal;
use channel::channel::Channel;
use nonce::Nonce;
use wire::decode::decode;
use wire::message::{Body, Message};

impl<B: Book> Endpoint<B> {
    /// Whether a message is of this IKE SA, and from the peer.
    fn is_from_peer(&self, message: &Message<Nonce>) -> bool
        ensures { result ≡ is_from_peer self.now message.now }
    {
        message.initiator == self.initiator
            && message.responder == self.responder
            && message.sender != self.side
    }

    /// What the end does with a message, with a nonce for a reply that needs one.
    fn hear_message(&mut self, message: Message<Nonce>, nonce: &Nonce) -> Reaction
        ensures heard { message_heard self.old nonce.now (Ok message) ≡ heard_by result self.new }
        ensures stays { Stays result self.old self.new }
        ensures side { self.new.side ≡ self.old.side }
    {
        if !self.is_from_peer(&message) {
            return Reaction::Refused(DeliverRefusal::NotThePeer);
        }
        let Message { id, body, .. } = message;
        match body {
            Body::Request(request) => self.hear_request(id, request, nonce),
            Body::Response(response) => self.hear_response(id, response),
        }
    }

    /// What the end does with a datagram.
    fn hear(&mut self, datagram: &[u8], nonce: &Nonce) -> Reaction
        ensures heard { heard self.old nonce.now (Some datagram.now) ≡ heard_by result self.new }
        ensures stays { Stays result self.old self.new }
        ensures side { self.new.side ≡ self.old.side }
    {
        match decode(datagram) {
            Ok(message) => self.hear_message(owned(message), nonce),
            Err(refusal) => Reaction::Refused(DeliverRefusal::NoMessage(refusal)),
        }
    }

    /// Takes one message from the channel and does what it says, with a nonce for a reply that needs one.
    #[tactic(auto, using(crate::proofs::Hearing::acts_again))]
    pub fn deliver<C: Channel>(
        &mut self,
        channel: &mut C,
        nonce: &[u8],
    ) -> Result<Delivered, DeliverRefusal>
        ensures { Delivers C.Channel.behaviour self.old channel.old nonce.now result self.new channel.new }
    {
        let nonce = Nonce::new(nonce).ok_or(DeliverRefusal::NonceLength)?;
        let mut room = [0; 256];
        let datagram = take(channel, self.side, &mut room).ok_or(DeliverRefusal::NothingCame)?;
        match self.hear(datagram, &nonce) {
            Reaction::Refused(refusal) => Err(refusal),
            Reaction::Again => Ok(Delivered::Again(self.say(Says::Reply, channel))),
            Reaction::Done(says) => Ok(Delivered::Done(self.say(says, channel))),
        }
    }
}
