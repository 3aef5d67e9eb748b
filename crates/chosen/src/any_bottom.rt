//! A bottom of any kind.
ghost use Rattle.std.specs.Prelude.{◌≡◌, length};
ghost use Rattle.bottoms.specs.Holding.{holding_sound};
ghost use Rattle.chosen.specs.Piles.{bottom_means, bottom_behaves};
ghost use Rattle.chosen.specs.declared.any_bottom.AnyBottom.TheVariants.{Queue as IsQueue, Stack as IsStack, Trace as IsTrace};

use bottoms::queue::Queue;
use bottoms::stack::Stack;
use bottoms::trace::Trace;
use channel::channel::Channel;
use channel::sent::Sent;
use nonce::side::Side;

/// A channel with no layer, whose kind is chosen at run time. An enum, and each method a match, as `AnyBook`: no function may
/// make a `dyn Channel` and hand it out.
#[derive(Drop)]
pub enum AnyBottom {
    Queue(Queue),
    Stack(Stack),
    Trace(Trace),
}

impl AnyBottom {
    /// How many datagrams wait at an end.
    pub fn waiting(&self, at: Side) -> usize
        ensures { result ≡ length ((bottom_means self.now).waiting at) }
    {
        match self {
            AnyBottom::Queue(channel) => channel.waiting(at),
            AnyBottom::Stack(channel) => channel.waiting(at),
            AnyBottom::Trace(channel) => channel.waiting(at),
        }
    }
}

impl Channel for AnyBottom {
    ghost behaviour = { bottom_behaves };

    ghost sound = { elim [
      | IsQueue c ↦ holding_sound 32 c.lanes
      | IsStack c ↦ holding_sound 32 c.lanes
      | IsTrace c ↦ holding_sound 0 c.lanes
    ] };

    fn longest(&self) -> usize {
        match self {
            AnyBottom::Queue(channel) => channel.longest(),
            AnyBottom::Stack(channel) => channel.longest(),
            AnyBottom::Trace(channel) => channel.longest(),
        }
    }

    fn send(&mut self, to: Side, datagram: &[u8]) -> Sent {
        match self {
            AnyBottom::Queue(channel) => channel.send(to, datagram),
            AnyBottom::Stack(channel) => channel.send(to, datagram),
            AnyBottom::Trace(channel) => channel.send(to, datagram),
        }
    }

    fn receive(&mut self, at: Side, buffer: &mut [u8]) -> Option<usize> {
        match self {
            AnyBottom::Queue(channel) => channel.receive(at, buffer),
            AnyBottom::Stack(channel) => channel.receive(at, buffer),
            AnyBottom::Trace(channel) => channel.receive(at, buffer),
        }
    }
}
