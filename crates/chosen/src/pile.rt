//! A bottom with the markers over it.
ghost use Rattle.std.specs.Prelude.{◌≡◌, ◌≤◌, length};
ghost use Rattle.chosen.specs.Piles.{bottom_means, layer_behaves, layered, piled, below_of, marks, markers_of, bottom_of};
ghost use Rattle.channel.specs.Marking.{marked_sound};
ghost use Rattle.chosen.specs.declared.pile.Layer.TheVariants.{Bare, Marked};

use crate::any_bottom::AnyBottom;
use channel::channel::Channel;
use channel::marker::Marker;
use channel::sent::Sent;
use nonce::side::Side;

/// A channel with or without a marker over it, as is chosen at run time. Each method is a match, since no function may make a
/// `dyn Channel` and hand it out.
#[derive(Drop)]
pub enum Layer<C> {
    Bare(C),
    Marked(Marker<C>),
}

/// A bottom with up to three markers over it. A box for each would be memory that `over` could want.
pub type Pile = Layer<Layer<Layer<AnyBottom>>>;

/// A bottom with this many markers over it, at most three.
pub fn over(bottom: AnyBottom, markers: usize) -> Pile
    ensures pile { result ≡ piled bottom markers }
    ensures bottom { bottom_of result ≡ bottom }
    ensures markers { markers ≤ 3 → markers_of result ≡ markers }
{
    let lowest = Layer::new(bottom, markers > 0);
    let middle = Layer::new(lowest, markers > 1);
    Layer::new(middle, markers > 2)
}

impl Pile {
    /// How many markers stand over the bottom.
    pub fn markers(&self) -> usize
        ensures { result ≡ markers_of self.now }
    {
        let middle = self.below();
        let lowest = middle.below();
        self.marks() + middle.marks() + lowest.marks()
    }

    /// How many datagrams wait at an end, marked or not.
    pub fn waiting(&self, at: Side) -> usize
        ensures { result ≡ length ((bottom_means (bottom_of self.now)).waiting at) }
    {
        self.below().below().below().waiting(at)
    }

    /// The same bottom with this many markers over it, at most three. What waits there stays.
    pub fn with_markers(self, markers: usize) -> Pile
        ensures { result ≡ piled (bottom_of self) markers }
    {
        let bottom = self.into_below().into_below().into_below();
        over(bottom, markers)
    }
}

impl<C: Channel> Layer<C> {
    /// A channel, and a marker over it where it is to be marked.
    fn new(channel: C, marked: bool) -> Layer<C>
        ensures { result ≡ layered channel marked }
    {
        if marked {
            Layer::Marked(Marker::over(channel))
        } else {
            Layer::Bare(channel)
        }
    }

    /// How often this layer marks what is sent: once, or not at all.
    fn marks(&self) -> usize
        ensures { result ≡ marks self.now }
    {
        match self {
            Layer::Bare(_) => 0,
            Layer::Marked(_) => 1,
        }
    }

    /// The channel below this layer.
    fn below(&self) -> &C
        ensures { result.now ≡ below_of self.now }
    {
        match self {
            Layer::Bare(channel) => channel,
            Layer::Marked(marker) => marker.below(),
        }
    }

    /// The channel below this layer, given back.
    fn into_below(self) -> C
        ensures { result ≡ below_of self }
    {
        match self {
            Layer::Bare(channel) => channel,
            Layer::Marked(marker) => marker.into_below(),
        }
    }
}

impl<C: Channel> Channel for Layer<C> {
    ghost behaviour = { layer_behaves C.Channel.behaviour };

    ghost sound = { elim [
      | Bare c ↦ C.Channel.sound c
      | Marked c ↦ marked_sound _ (C.Channel.sound c.below)
    ] };

    fn longest(&self) -> usize {
        match self {
            Layer::Bare(channel) => channel.longest(),
            Layer::Marked(channel) => channel.longest(),
        }
    }

    fn send(&mut self, to: Side, datagram: &[u8]) -> Sent {
        match self {
            Layer::Bare(channel) => channel.send(to, datagram),
            Layer::Marked(channel) => channel.send(to, datagram),
        }
    }

    fn receive(&mut self, at: Side, buffer: &mut [u8]) -> Option<usize> {
        match self {
            Layer::Bare(channel) => channel.receive(at, buffer),
            Layer::Marked(channel) => channel.receive(at, buffer),
        }
    }
}
