//! The commands on books.
ghost use Rattle.std.specs.Prelude.{◌≡◌, IfOk, string_bytes};
ghost use Rattle.book.specs.Audits.{audited};
ghost use Rattle.book.specs.Shelves.{put_in, written_in, removed_from, read_in, find as found_in, next as next_in};
ghost use Rattle.childsa.specs.Told.{told, rows_text};
ghost use Rattle.texts.specs.Told.{spi_text, read_text, finding_text};

use crate::commands::Line;
use crate::desk::Desk;
use crate::row_words::read_row;
use crate::words::Words;
use crate::wrong::{Stop, Wrong};
use book::Book;
use book::row::Row;
use chosen::any_book::AnyBook;
use nonce::side::Side;
use ordered::OrderedBook;
use std::alloc::{AllocError, Global};
use table::TableBook;
use texts::told::Told;

/// `book KIND BOOK`: starts a book with no rows.
pub(crate) fn start(line: &mut Line<'_>) -> Result<String, Stop> {
    let (kind, book) = read_kind(&mut line.words)?;
    let side = line.words.side()?;
    line.words.end()?;
    line.desk.start(side, book);
    Ok(format!(in line.words.heap; "book {side} {kind}")?)
}

/// The name of a kind, and a book of that kind with no rows. A match on the word, since each makes a book of its own type.
pub(crate) fn read_kind(words: &mut Words<'_>) -> Result<(&'static str, AnyBook), Stop> {
    let expected = "`ordered` or `table`";
    match words.word(expected)? {
        "ordered" => {
            let book = Box::new(words.heap, OrderedBook::new())?;
            Ok(("ordered", AnyBook::Ordered(book)))
        }
        "table" => {
            let book = Box::new(words.heap, TableBook::new())?;
            Ok(("table", AnyBook::Table(book)))
        }
        word => words.unexpected(word, expected),
    }
}

/// `put BOOK ROW`: adds a row.
pub(crate) fn put(line: &mut Line<'_>) -> Result<String, Stop> {
    change(line, read_row, put_in)
}

/// `write BOOK ROW`: puts a row into the place of the one that has its own SPI.
pub(crate) fn write(line: &mut Line<'_>) -> Result<String, Stop> {
    change(line, read_row, write_in)
}

/// `drop BOOK OWN`: removes the row of an own SPI.
pub(crate) fn remove(line: &mut Line<'_>) -> Result<String, Stop> {
    change(line, read_own, remove_from)
}

/// `read BOOK OWN`: the row of an own SPI.
pub(crate) fn read(line: &mut Line<'_>) -> Result<String, Stop> {
    ask(line, read_own, read_text)
}

/// `find BOOK PEER`: the lowest own SPI of a row that has a peer SPI and is not Opening.
pub(crate) fn find(line: &mut Line<'_>) -> Result<String, Stop> {
    ask(line, |words| words.number("a peer SPI"), find_text)
}

/// `next BOOK OWN`: the lowest own SPI above one.
pub(crate) fn next(line: &mut Line<'_>) -> Result<String, Stop> {
    ask(line, read_own, next_text)
}

/// `rows BOOK`: how many rows there are, and how many there can be.
pub(crate) fn rows(line: &mut Line<'_>) -> Result<String, Stop> {
    ask(line, |_| Ok(()), |heap, book, _| rows_text(heap, book))
}

/// `audit`: the first row of either book that has no mirror in the other.
pub(crate) fn audit(line: &mut Line<'_>) -> Result<String, Stop> {
    line.words.end()?;
    let a = book_of(line.desk, Side::A)?;
    let b = book_of(line.desk, Side::B)?;
    Ok(audit_text(line.words.heap, a, b)?)
}

/// The book of a name.
fn book_of(desk: &Desk, name: Side) -> Result<&AnyBook, Wrong> {
    desk.book(name).ok_or(Wrong::NoBook(name))
}

/// An own SPI, to find a row by.
fn read_own(words: &mut Words<'_>) -> Result<u32, Stop> {
    words.number("an own SPI")
}

/// Changes the book that is named by what is read behind its name, and tells the answer.
fn change<'a, X, R, F>(line: &mut Line<'a>, read: R, step: F) -> Result<String, Stop>
where
    X: Drop,
    R: FnOnce(&mut Words<'a>) -> Result<X, Stop>,
    F: FnOnce(Global, &mut AnyBook, X) -> Result<String, AllocError>,
    requires reads { R.IsAlwaysCallable read }
    requires steps { F.IsAlwaysCallable step }
{
    let name = line.words.side()?;
    let behind = read(&mut line.words)?;
    line.words.end()?;
    let book = line.desk.book_mut(name).ok_or(Wrong::NoBook(name))?;
    Ok(step(line.words.heap, book, behind)?)
}

/// What a book answers to what is read behind its name. Apart from `change`, so that a question takes the book as it is.
fn ask<'a, X, R, F>(line: &mut Line<'a>, read: R, question: F) -> Result<String, Stop>
where
    X: Drop,
    R: FnOnce(&mut Words<'a>) -> Result<X, Stop>,
    F: FnOnce(Global, &AnyBook, X) -> Result<String, AllocError>,
    requires reads { R.IsAlwaysCallable read }
    requires asks { F.IsAlwaysCallable question }
{
    let name = line.words.side()?;
    let behind = read(&mut line.words)?;
    line.words.end()?;
    let book = book_of(line.desk, name)?;
    Ok(question(line.words.heap, book, behind)?)
}

/// Adds a row, and tells the answer.
// one line, as in those below: a function, since its contract says what the line tells
fn put_in<B: Book>(heap: Global, book: &mut B, row: Row) -> Result<String, AllocError>
    ensures { IfOk result (λ s. (string_bytes s, B.Book.shelf book.new) ≡ told (put_in (B.Book.shelf book.old) row)) }
{
    Told(book.put(row)).to_string(heap)
}

/// Puts a row into the place of the one that has its own SPI, and tells the answer.
fn write_in<B: Book>(heap: Global, book: &mut B, row: Row) -> Result<String, AllocError>
    ensures { IfOk result (λ s. (string_bytes s, B.Book.shelf book.new) ≡ told (written_in (B.Book.shelf book.old) row)) }
{
    Told(book.write(row)).to_string(heap)
}

/// Removes the row of an own SPI, and tells the answer.
fn remove_from<B: Book>(heap: Global, book: &mut B, own: u32) -> Result<String, AllocError>
    ensures { IfOk result (λ s. (string_bytes s, B.Book.shelf book.new) ≡ told (removed_from (B.Book.shelf book.old) own)) }
{
    Told(book.remove(own)).to_string(heap)
}

/// The row of an own SPI as text.
fn read_text<B: Book>(heap: Global, book: &B, own: u32) -> Result<String, AllocError>
    ensures { IfOk result (λ s. string_bytes s ≡ read_text (read_in (B.Book.shelf book.now) own)) }
{
    Told(book.read(own)).to_string(heap)
}

/// What is found by a peer SPI, as text.
fn find_text<B: Book>(heap: Global, book: &B, peer: u32) -> Result<String, AllocError>
    ensures { IfOk result (λ s. string_bytes s ≡ spi_text (found_in (B.Book.shelf book.now).rows peer)) }
{
    Told(book.find(peer)).to_string(heap)
}

/// The own SPI that comes next, as text.
fn next_text<B: Book>(heap: Global, book: &B, own: u32) -> Result<String, AllocError>
    ensures { IfOk result (λ s. string_bytes s ≡ spi_text (next_in (B.Book.shelf book.now).rows own)) }
{
    Told(book.next(own)).to_string(heap)
}

/// How many rows there are and can be, as text.
pub(crate) fn rows_text<B: Book>(heap: Global, book: &B) -> Result<String, AllocError>
    ensures { IfOk result (λ s. string_bytes s ≡ rows_text (B.Book.shelf book.now)) }
{
    let len = book.len();
    let capacity = book.capacity();
    format!(in heap; "{len} of {capacity}")
}

/// What an audit of two books finds, as text.
pub(crate) fn audit_text<P: Book, Q: Book>(heap: Global, a: &P, b: &Q) -> Result<String, AllocError>
    ensures { IfOk result (λ s. string_bytes s ≡ finding_text (audited (P.Book.shelf a.now) (Q.Book.shelf b.now))) }
{
    Told(book::audit::audit(a, b)).to_string(heap)
}
