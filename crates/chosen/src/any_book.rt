//! A book of either kind.
ghost use Rattle.std.specs.Prelude.{◌≡◌};
ghost use Rattle.chosen.specs.Books.{any_shelf, kind_text};
ghost use Rattle.chosen.specs.declared.any_book.AnyBook.TheVariants.{Ordered, Table};

use book::row::Row;
use book::{Book, BookRefusal};
use ordered::OrderedBook;
use table::TableBook;

/// A book whose kind is chosen at run time. Each method is a match, since no function may make a `dyn Book` and hand it out.
/// Generic in the two books, so that the proof goes by the laws of `Book` and never opens a book.
#[derive(Drop)]
pub enum AnyBook<O = OrderedBook, T = TableBook> {
    Ordered(Box<O>),
    Table(Box<T>),
}

impl<O, T> AnyBook<O, T> {
    /// The name of the kind.
    pub fn kind(&self) -> &'static str
        ensures { result.now ≡ kind_text self.now }
    {
        match self {
            AnyBook::Ordered(_) => "ordered",
            AnyBook::Table(_) => "table",
        }
    }
}

impl<O: Book, T: Book> Book for AnyBook<O, T> {
    ghost shelf = { λ b. any_shelf O.Book.shelf T.Book.shelf b };

    ghost orderly = { elim [
      | Ordered b ↦ O.Book.orderly b.value
      | Table b ↦ T.Book.orderly b.value
    ] };

    fn len(&self) -> usize {
        match self {
            AnyBook::Ordered(book) => book.len(),
            AnyBook::Table(book) => book.len(),
        }
    }

    fn capacity(&self) -> usize {
        match self {
            AnyBook::Ordered(book) => book.capacity(),
            AnyBook::Table(book) => book.capacity(),
        }
    }

    fn put(&mut self, row: Row) -> Result<(), BookRefusal> {
        match self {
            AnyBook::Ordered(book) => book.put(row),
            AnyBook::Table(book) => book.put(row),
        }
    }

    fn read(&self, own: u32) -> Result<Row, BookRefusal> {
        match self {
            AnyBook::Ordered(book) => book.read(own),
            AnyBook::Table(book) => book.read(own),
        }
    }

    fn write(&mut self, row: Row) -> Result<(), BookRefusal> {
        match self {
            AnyBook::Ordered(book) => book.write(row),
            AnyBook::Table(book) => book.write(row),
        }
    }

    fn remove(&mut self, own: u32) -> Result<(), BookRefusal> {
        match self {
            AnyBook::Ordered(book) => book.remove(own),
            AnyBook::Table(book) => book.remove(own),
        }
    }

    fn find(&self, peer: u32) -> Option<u32> {
        match self {
            AnyBook::Ordered(book) => book.find(peer),
            AnyBook::Table(book) => book.find(peer),
        }
    }

    fn next(&self, own: u32) -> Option<u32> {
        match self {
            AnyBook::Ordered(book) => book.next(own),
            AnyBook::Table(book) => book.next(own),
        }
    }
}
