//! A channel that keeps what passes through it.
ghost use Rattle.std.specs.Prelude.{◌≡◌, take};

use arrayvec::ArrayVec;
use channel::channel::Channel;
use channel::sent::Sent;
use nonce::side::Side;
use std::marker::Model;

/// The copy of a datagram. Fixed memory, as a channel's: no channel takes more than 256 octets.
type Copied = ArrayVec<u8, 256>;

/// A channel over the one below, which does what that does, and keeps a copy of the last datagram that was sent through it
/// and of the last that came. A receive forgets both first.
#[derive(Drop)]
pub(crate) struct Tap<C> {
    below: C,
    sent: Option<(Copied, Sent)>,
    came: Option<Copied>,
}

/// To a contract a tap is the channel below: what it keeps is to be shown, and nothing rests on it.
impl<C> Model for Tap<C> {
    ghost Value = { C };

    ghost view = { λ t. t.below };
}

/// A copy of octets, of the first 256 where there are more.
fn copied(octets: &[u8]) -> Copied
    ensures { result.items ≡ take 256 octets.now }
{
    let mut copy = Copied::new();
    let front = usize::min(256, octets.len());
    let _fits = copy.try_extend_from_slice(&octets[..front]);
    copy
}

impl<C: Channel> Tap<C> {
    /// A tap over a channel, through which nothing has passed.
    pub(crate) fn over(below: C) -> Tap<C>
        ensures { result ≡ below }
    {
        Tap {
            below,
            sent: None,
            came: None,
        }
    }

    /// The channel below.
    pub(crate) fn below(&self) -> &C
        ensures { result.now ≡ self.now }
    {
        &self.below
    }

    /// The last datagram that was sent, since something was to be received, and whether it was taken.
    pub(crate) fn sent(&self) -> Option<(&[u8], Sent)> {
        let (octets, sent) = self.sent.as_ref()?;
        Some((octets.as_slice(), *sent))
    }

    /// The datagram that came, if one did when something was last to be received.
    pub(crate) fn came(&self) -> Option<&[u8]> {
        Some(self.came.as_ref()?.as_slice())
    }
}

impl<C: Channel> Channel for Tap<C> {
    ghost behaviour = { C.Channel.behaviour };

    ghost sound = { λ s. C.Channel.sound s };

    fn longest(&self) -> usize {
        self.below.longest()
    }

    fn send(&mut self, to: Side, datagram: &[u8]) -> Sent {
        let sent = self.below.send(to, datagram);
        self.sent = Some((copied(datagram), sent));
        sent
    }

    fn receive(&mut self, at: Side, buffer: &mut [u8]) -> Option<usize> {
        self.sent = None;
        self.came = None;
        let len = self.below.receive(at, buffer)?;
        self.came = Some(copied(&buffer[..len]));
        Some(len)
    }
}
