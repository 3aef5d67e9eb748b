//! A layer that marks each datagram: four zero octets stand before the message, as before an IKE message in RFC 3948.
ghost use Rattle.std.specs.Prelude.{◌≡◌, ◌-◌, ◌<◌, ◌≤◌, ◌↔◌, true, [], length, drop, None, IsSome, IfSome};
ghost use Rattle.channel.specs.Meaning.{Within};
ghost use Rattle.channel.specs.Effects.{SentAs, ReceivedAs, came_in};
ghost use Rattle.channel.specs.Marks.{mark, is_marked, passed, marked, Unmarks};
ghost use Rattle.channel.specs.Markers.{marker_over, SendsMarked, GivesMarked};
ghost use Rattle.channel.specs.Marking.{marked_sound};

use crate::channel::Channel;
use crate::sent::Sent;
use arrayvec::ArrayVec;
use nonce::side::Side;

/// A marker over the channel below.
#[derive(Drop)]
pub struct Marker<C> {
    below: C,
}

impl<C: Channel> Marker<C> {
    /// A marker that takes the channel below.
    pub fn over(below: C) -> Marker<C>
        ensures { result.below ≡ below }
    {
        Marker { below }
    }

    /// The channel below.
    pub fn below(&self) -> &C
        ensures { result.now ≡ self.now.below }
    {
        &self.below
    }

    /// The channel below, given back.
    pub fn into_below(self) -> C
        ensures { result ≡ self.below }
    {
        let Self { below } = self;
        below
    }
}

/// The mark and a message behind it.
fn with_mark(message: &[u8]) -> ArrayVec<u8, 256>
    requires { length message.now ≤ 252 }
    ensures { result.items ≡ mark message.now }
{
    let mut marked = ArrayVec::new();
    let _fits = marked.try_extend_from_slice(&[0; 4]);
    let _fits = marked.try_extend_from_slice(message);
    marked
}

/// What is behind the mark, where a datagram has the mark and something behind it.
fn behind_mark(datagram: &[u8]) -> Option<&[u8]>
    ensures marked { IsSome result ↔ (is_marked datagram.now ≡ true) }
    ensures value { IfSome result (λ message. message.now ≡ drop 4 datagram.now) }
{
    match datagram {
        [0, 0, 0, 0, message @ ..] if !message.is_empty() => Some(message),
        _ => None,
    }
}

/// Writes what is behind the mark to the front of the buffer; nothing, where a datagram is not marked.
fn pass_on(datagram: &[u8], buffer: &mut [u8]) -> Option<usize>
    requires { length datagram.now - 4 ≤ length buffer.old }
    ensures { (result, buffer.new) ≡ passed datagram.now buffer.old }
{
    let message = behind_mark(datagram)?;
    buffer[..message.len()].copy_from_slice(message);
    Some(message.len())
}

impl<C: Channel> Channel for Marker<C> {
    ghost behaviour = { marker_over C.Channel.behaviour };

    ghost sound = { λ s. marked_sound _ (C.Channel.sound s.below) };

    fn longest(&self) -> usize {
        self.below.longest().saturating_sub(4)
    }

    fn send(&mut self, to: Side, datagram: &[u8]) -> Sent
        ensures effect { SentAs (marked (C.Channel.behaviour.meaning self.old.below)) (marked (C.Channel.behaviour.meaning self.new.below)) to datagram.now result }
        ensures unfit { (Within (marked (C.Channel.behaviour.meaning self.old.below)) datagram.now → ⊥) → (result ≡ Sent.NotTaken) × (self.new ≡ self.old) }
        ensures below { Within (marked (C.Channel.behaviour.meaning self.old.below)) datagram.now → SentAs (C.Channel.behaviour.meaning self.old.below) (C.Channel.behaviour.meaning self.new.below) to (mark datagram.now) result }
        ensures exactly { SendsMarked C.Channel.behaviour self.old.below to datagram.now result self.new.below }
    {
        let len = datagram.len();
        if len == 0 || len > self.longest() {
            return Sent::NotTaken;
        }
        self.below.send(to, with_mark(datagram).as_slice())
    }

    fn receive(&mut self, at: Side, buffer: &mut [u8]) -> Option<usize>
        ensures effect { ReceivedAs (marked (C.Channel.behaviour.meaning self.old.below)) (marked (C.Channel.behaviour.meaning self.new.below)) at buffer.old buffer.new result }
        ensures short { length buffer.old < (marked (C.Channel.behaviour.meaning self.old.below)).longest → (result ≡ None) × (self.new ≡ self.old) }
        ensures idle { 0 < (marked (C.Channel.behaviour.meaning self.old.below)).depth → (marked (C.Channel.behaviour.meaning self.old.below)).waiting at ≡ [] → (result ≡ None) × (self.new ≡ self.old) }
        ensures below { (marked (C.Channel.behaviour.meaning self.old.below)).longest ≤ length buffer.old → Unmarks (C.Channel.behaviour.meaning self.old.below) (C.Channel.behaviour.meaning self.new.below) at buffer.old buffer.new result }
        ensures exactly { (marked (C.Channel.behaviour.meaning self.old.below)).longest ≤ length buffer.old → GivesMarked C.Channel.behaviour self.old.below at (came_in buffer.new result) self.new.below }
    {
        if buffer.len() < self.longest() {
            return None;
        }
        // fixed memory, a rule of the project: the channel below writes to a slice of full length
        let mut room = [0; 256];
        let len = self.below.receive(at, &mut room)?;
        pass_on(&room[..len], buffer)
    }
}
