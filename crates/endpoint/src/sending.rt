//! How an end sends, and takes what has come.
ghost use Rattle.std.specs.Prelude.{◌≡◌};
ghost use Rattle.std.specs.Option.{option_map};
ghost use Rattle.law.specs.Effects.{Comes, Replies};
ghost use Rattle.endpoint.specs.Reactions.{said};

use crate::Endpoint;
use crate::reaction::Says;
use book::Book;
use channel::channel::Channel;
use channel::sent::Sent;
use nonce::side::Side;

/// What has come to an end, if anything.
pub(crate) fn take<'a, C: Channel>(
    channel: &mut C,
    at: Side,
    room: &'a mut [u8; 256],
) -> Option<&'a [u8]>
    ensures { Comes C.Channel.behaviour channel.old channel.new at (option_map (λ s. s.now) result) }
{
    let len = channel.receive(at, room)?;
    Some(&room[..len])
}

impl<B: Book> Endpoint<B> {
    /// Sends to the peer. This is the one place where an end sends. What is not said counts as taken.
    pub(crate) fn say<C: Channel>(&self, says: Says, channel: &mut C) -> Sent
        ensures { Replies C.Channel.behaviour self.now.side channel.old (said says self.now) result channel.new }
    {
        let octets = match says {
            Says::Nothing => None,
            Says::Reply => self.reply.as_ref(),
            Says::Request => self.outstanding.and(Some(&self.request)),
        };
        match octets {
            Some(octets) => channel.send(self.side.other(), octets.as_slice()),
            None => Sent::Taken,
        }
    }
}
