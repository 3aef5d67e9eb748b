//! What a script works on.
ghost use Rattle.std.specs.Prelude.{◌≡◌};
ghost use Rattle.std.specs.Option.{option_map};
ghost use Rattle.chosen.specs.Piles.{pile_behaves};
ghost use Rattle.childsa.specs.Desks.{empty_desk, book_at, with_book, with_markers};

use crate::ends::Ends;
use channel::channel::Channel;
use chosen::any_book::AnyBook;
use chosen::pile::Pile;
use nonce::both::Both;
use nonce::side::Side;

/// The books A and B, the channel, and the two ends, once they are made.
#[derive(Default, Drop)]
pub(crate) struct Desk {
    books: Both<Option<AnyBook>>,
    pub(crate) channel: Option<Pile>,
    pub(crate) ends: Option<Ends>,
}

impl Desk {
    /// A desk on which there is nothing.
    pub(crate) fn new() -> Desk
        ensures { result ≡ empty_desk }
    {
        Desk::default()
    }

    /// Puts a book there under a name, in the place of one that had it.
    pub(crate) fn start(&mut self, name: Side, book: AnyBook)
        ensures { self.new ≡ with_book self.old name book }
    {
        *self.books.at_mut(name) = Some(book);
    }

    /// The book of a name.
    pub(crate) fn book(&self, name: Side) -> Option<&AnyBook>
        ensures { option_map (λ x. x.now) result ≡ book_at self.now name }
    {
        self.books.at(name).as_ref()
    }

    /// Puts this many markers over the bottom of the channel, in the place of those that are there, and tells the longest
    /// datagram then.
    pub(crate) fn mark(&mut self, markers: usize) -> Option<usize>
        ensures desk { self.new ≡ with_markers self.old markers }
        ensures longest { result ≡ option_map (λ p. (pile_behaves.meaning p).longest) self.new.channel }
    {
        let pile = self.channel.take()?.with_markers(markers);
        let longest = pile.longest();
        self.channel = Some(pile);
        Some(longest)
    }

    /// The book of a name, to change it: beside `book`, as `as_mut` is beside `as_ref`.
    pub(crate) fn book_mut(&mut self, name: Side) -> Option<&mut AnyBook> {
        self.books.at_mut(name).as_mut()
    }
}
