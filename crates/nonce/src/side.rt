//! The two ends of an IKE SA.
ghost use Rattle.std.specs.Prelude.{◌≡◌, Some};
ghost use Rattle.nonce.specs.Names.{side_text};
ghost use Rattle.nonce.specs.Sides.{other};

use std::fmt;

/// An end: A is the original initiator of the IKE SA, B the original responder.
#[derive(Clone, Copy, PartialEq, Eq, Debug)]
pub enum Side {
    A,
    B,
}

impl Side {
    /// The end across the line.
    pub fn other(self) -> Side
        ensures { result ≡ other self }
    {
        match self {
            Side::A => Side::B,
            Side::B => Side::A,
        }
    }
}

impl fmt::Display for Side {
    ghost output = { λ s. Some (side_text s) };

    fn fmt<W: fmt::Write>(&self, f: &mut fmt::Formatter<W>) -> fmt::Result {
        f.write_str(match self {
            Side::A => "A",
            Side::B => "B",
        })
    }
}
