//! Questions to an end, which change nothing.
ghost use Rattle.std.specs.Prelude.{◌≡◌, ℕ};
ghost use Rattle.law.specs.Ends.{is_quiet};
ghost use Rattle.endpoint.specs.Questions.{number_left, has_collision};

use crate::Endpoint;
use book::Book;

/// A number of 32 bits, unless they are spent.
fn left(number: u64) -> Option<u32>
    ensures { result ≡ number_left number }
{
    u32::try_from(number).ok()
}

impl<B: Book> Endpoint<B> {
    /// Whether nothing is outstanding.
    pub fn is_quiet(&self) -> bool
        ensures { result ≡ is_quiet self.now.outstanding }
    {
        self.outstanding.is_none()
    }

    /// The next own Message ID; nothing where they are spent.
    pub fn next_id(&self) -> Option<u32>
        ensures { result ≡ number_left self.now.next }
    {
        left(self.next)
    }

    /// The Message ID of the peer's next request; nothing where they are spent.
    pub fn expected_id(&self) -> Option<u32>
        ensures { result ≡ number_left self.now.expected }
    {
        left(self.expected)
    }

    /// The next own SPI; nothing where they are spent.
    pub fn next_spi(&self) -> Option<u32>
        ensures { result ≡ number_left self.now.spi }
    {
        left(self.spi)
    }

    /// Whether the outstanding request has recorded a collision.
    pub fn has_collision(&self) -> bool
        ensures { result ≡ has_collision self.now.outstanding }
    {
        self.collision.is_some()
    }

    /// The book.
    pub fn book(&self) -> &B
        ensures { B.Book.shelf result.now ≡ self.now.shelf }
    {
        &self.book
    }
}
