//! What a pair holds, to look at, and to have back.
ghost use Rattle.std.specs.Prelude.{◌≡◌};

use crate::Pair;
use book::Book;
use endpoint::Endpoint;

/// What two ends leave: their books, and the channel. The ends are used up: what is still in the channel belongs to nobody.
#[derive(Drop)]
pub struct Parts<P, Q, C> {
    pub a: P,
    pub b: Q,
    pub channel: C,
}

impl<P: Book, Q: Book, C> Pair<P, Q, C> {
    /// The end A.
    pub fn a(&self) -> &Endpoint<P>
        ensures { result.now ≡ self.now.a }
    {
        &self.a
    }

    /// The end B.
    pub fn b(&self) -> &Endpoint<Q>
        ensures { result.now ≡ self.now.b }
    {
        &self.b
    }

    /// The channel.
    pub fn channel(&self) -> &C
        ensures { result.now ≡ self.now.channel }
    {
        &self.channel
    }

    /// The books and the channel. The ends are used up.
    pub fn into_parts(self) -> Parts<P, Q, C>
        ensures a { P.Book.shelf result.a ≡ self.a.shelf }
        ensures b { Q.Book.shelf result.b ≡ self.b.shelf }
        ensures channel { result.channel ≡ self.channel }
    {
        let Self { a, b, channel } = self;
        Parts {
            a: a.into_book(),
            b: b.into_book(),
            channel,
        }
    }
}
