//! What a channel is.
ghost use Rattle.std.specs.Prelude.{◌≡◌, ◌<◌, ◌≤◌, [], length, None};
ghost use Rattle.channel.specs.Behaviour.{Behaviour};
ghost use Rattle.channel.specs.Meaning.{Sound, Within};
ghost use Rattle.channel.specs.Effects.{SentAs, ReceivedAs, came_in};

use crate::sent::Sent;
use nonce::side::Side;

/// A channel takes datagrams for each of two ends, and gives them there: perhaps in another order, more than once, or never.
pub trait Channel {
    /// Which datagrams may still come to each end, and what a send and a receive do.
    ghost behaviour: { Behaviour Self };

    /// The most octets of a datagram, which never changes.
    fn longest(&self) -> usize
        ensures { result ≡ (behaviour.meaning self.now).longest };

    /// Sends a datagram to an end. One that is empty or too long is not taken, and nothing changes.
    fn send(&mut self, to: Side, datagram: &[u8]) -> Sent
        ensures effect { SentAs (behaviour.meaning self.old) (behaviour.meaning self.new) to datagram.now result }
        ensures unfit { (Within (behaviour.meaning self.old) datagram.now → ⊥) → (result ≡ Sent.NotTaken) × (self.new ≡ self.old) }
        ensures exactly { behaviour.sends self.old to datagram.now result self.new };

    /// Takes a datagram that has come to an end: its octets at the front of the buffer, and their number. A buffer that is
    /// shorter than the longest datagram gets nothing, and nothing changes.
    // the caller's octets and a number, a rule of the project: no heap, and octets behind the datagram stay
    fn receive(&mut self, at: Side, buffer: &mut [u8]) -> Option<usize>
        ensures effect { ReceivedAs (behaviour.meaning self.old) (behaviour.meaning self.new) at buffer.old buffer.new result }
        ensures short { length buffer.old < (behaviour.meaning self.old).longest → (result ≡ None) × (self.new ≡ self.old) }
        ensures idle { 0 < (behaviour.meaning self.old).depth → (behaviour.meaning self.old).waiting at ≡ [] → (result ≡ None) × (self.new ≡ self.old) }
        ensures exactly { (behaviour.meaning self.old).longest ≤ length buffer.old → behaviour.gives self.old at (came_in buffer.new result) self.new };

    ghost sound: { (c : Self) → Sound (behaviour.meaning c) };
}
