//! The outstanding request.
ghost use Rattle.std.specs.Prelude.{◌≡◌};
ghost use Rattle.std.specs.Option.{option_map};
ghost use Rattle.endpoint.specs.Questions.{numbers_of};

use crate::Endpoint;
use book::Book;
use law::kinds::Kind;

/// The outstanding request of an end, in numbers. Its octets, and the nonces of a collision, are kept beside it.
#[derive(Clone, Copy, PartialEq, Eq, Debug)]
pub struct Outstanding {
    /// Its Message ID.
    pub id: u32,
    pub kind: Kind,
    /// The own SPI of the Opening row, or of the row to be deleted; 0 for a check.
    pub own: u32,
    /// The own SPI of the SA to be rekeyed; 0 for the others.
    pub old: u32,
}

impl<B: Book> Endpoint<B> {
    /// The outstanding request, in numbers.
    pub fn outstanding(&self) -> Option<Outstanding>
        ensures { result ≡ option_map numbers_of self.now.outstanding }
    {
        self.outstanding
    }
}
