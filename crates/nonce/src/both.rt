//! One of a kind for each end.
ghost use Rattle.std.specs.Prelude.{◌≡◌};
ghost use Rattle.std.specs.Borrow.{sem};
ghost use Rattle.nonce.specs.Both.{at, lends_at};

use crate::side::Side;

/// One for end A, and one for end B.
#[derive(Default, Drop)]
pub struct Both<T> {
    pub a: T,
    pub b: T,
}

impl<T> Both<T> {
    /// The one for an end.
    pub fn at(&self, side: Side) -> &T
        ensures { result.now ≡ at self.now side }
    {
        match side {
            Side::A => &self.a,
            Side::B => &self.b,
        }
    }

    /// The one for an end, for writing.
    pub fn at_mut(&mut self, side: Side) -> &mut T
        ensures* writes_back { sem 𝓛 (lends_at T.row self.entry side result) }
        ensures value { result.now ≡ at self.old side }
    {
        match side {
            Side::A => &mut self.a,
            Side::B => &mut self.b,
        }
    }
}
