//! What a channel of some depth is worth: what is sent comes.
ghost use Rattle.channel.specs.Loopback.{Looped, Ready, Returned};

use crate::channel::Channel;
use crate::sent::Sent;
use nonce::side::Side;

/// Sends a datagram to an end and, if it was taken, receives there. Where the channel has a depth and nothing waits at that
/// end, the datagram comes.
pub fn send_then_receive<C: Channel>(
    channel: &mut C,
    side: Side,
    datagram: &[u8],
    buffer: &mut [u8],
) -> Option<usize>
    ensures steps { Looped C.Channel.behaviour channel.old channel.new side datagram.now buffer.old buffer.new result }
    ensures returned { Ready (C.Channel.behaviour.meaning channel.old) side datagram.now buffer.old → Returned (C.Channel.behaviour.meaning channel.old) (C.Channel.behaviour.meaning channel.new) side datagram.now buffer.old buffer.new result }
{
    match channel.send(side, datagram) {
        Sent::Taken => channel.receive(side, buffer),
        Sent::NotTaken => None,
    }
}
