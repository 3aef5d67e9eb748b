//! Loops over any book.
ghost use Rattle.std.specs.Prelude.{◌≡◌, unwrap_or};
ghost use Rattle.book.specs.Shelves.{read_in, find as found_in};
ghost use Rattle.benched.specs.Books.{kept_in, own_of, peer_of, row_of, answered, filled, put_and_dropped, counted, found, peer_in, peers_read, then_done, put_and_drop_number};

use crate::mixed::mixed;
use book::row::{Beginner, KeptNonce, Row, RowState, Spis};
use book::{Book, BookRefusal};
use nonce::Nonce;
use numbered::Numbered;

/// The nonce of these octets as a row keeps it, or none.
pub(crate) fn kept_in(octets: &[u8]) -> KeptNonce
    ensures { result ≡ kept_in octets.now }
{
    match Nonce::new(octets) {
        Some(nonce) => KeptNonce::from(&nonce),
        None => KeptNonce {
            octets: [0; 32],
            len: 0,
        },
    }
}

/// Sixteen own SPIs, in no order.
fn own_of(k: u32) -> u32
    ensures { result ≡ own_of k }
{
    1000 + k % 16 * 7 % 16
}

/// Their peer SPIs.
fn peer_of(k: u32) -> u32
    ensures { result ≡ peer_of k }
{
    2000 + k % 16
}

/// The row that is filed as number `k`.
pub(crate) fn row_of(nonce: KeptNonce, k: u32) -> Row
    ensures { result ≡ row_of nonce k }
{
    Row {
        own: own_of(k),
        peer: peer_of(k),
        state: RowState::Standing,
        began: Beginner::ThisEnd,
        parent: Spis { own: 0, peer: 0 },
        ni: nonce,
        nr: nonce,
    }
}

/// The number of what a change of a book answers.
fn answered(answer: Result<(), BookRefusal>) -> u64
    ensures { result ≡ answered answer }
{
    match answer {
        Ok(()) => 0,
        Err(refusal) => u64::from(refusal.number()),
    }
}

/// Files so many rows.
fn fill<B: Book>(book: &mut B, rows: u32, nonce: KeptNonce) -> u64
    ensures { (result, B.Book.shelf book.new) ≡ filled nonce rows (B.Book.shelf book.old) }
{
    let mut all = 0;
    for k in 0..rows {
        all = mixed(all, answered(book.put(row_of(nonce, k))));
    }
    all
}

/// Puts a row and drops it again, many times.
fn put_and_drop<B: Book>(book: &mut B, row: &Row, times: u32) -> u64
    ensures { (result, B.Book.shelf book.new) ≡ put_and_dropped row.now times (B.Book.shelf book.old) }
{
    let mut all = 0;
    for _round in 0..times {
        all = mixed(all, answered(book.put(*row)));
        all = mixed(all, answered(book.remove(row.own)));
    }
    all
}

/// The own SPI of the row with a peer SPI; 0 where there is none.
fn own_with<B: Book>(book: &B, peer: u32) -> u64
    ensures { result ≡ unwrap_or (found_in (B.Book.shelf book.now).rows peer) 0 }
{
    u64::from(book.find(peer).unwrap_or(0))
}

/// The peer SPI of the row of an own SPI; 0 where there is none.
fn peer_in<B: Book>(book: &B, own: u32) -> u64
    ensures { result ≡ peer_in (read_in (B.Book.shelf book.now) own) }
{
    match book.read(own) {
        Ok(row) => u64::from(row.peer),
        Err(_) => 0,
    }
}

/// Looks many times for a row by its peer SPI.
fn find<B: Book>(book: &B, times: u32) -> u64
    ensures { result ≡ found times (B.Book.shelf book.now) }
{
    (0..times).fold(0, |all, i| mixed(all, own_with(book, peer_of(i))))
}

/// Reads many times a row by its own SPI.
fn read<B: Book>(book: &B, times: u32) -> u64
    ensures { result ≡ peers_read times (B.Book.shelf book.now) }
{
    (0..times).fold(0, |all, i| mixed(all, peer_in(book, own_of(i))))
}

/// Files so many rows in a book.
pub(crate) fn filled<B: Book + Drop>(mut book: B, rows: u32, nonce: KeptNonce) -> u64
    ensures { result ≡ counted (filled nonce rows (B.Book.shelf book)) }
{
    let all = fill(&mut book, rows, nonce);
    mixed(all, book.len() as u64)
}

/// Files so many rows in a book, and then puts the next and drops it again, many times.
pub(crate) fn put_and_dropped<B: Book + Drop>(
    mut book: B,
    rows: u32,
    nonce: KeptNonce,
    times: u32,
) -> u64
    ensures { result ≡ put_and_drop_number nonce rows times (B.Book.shelf book) }
{
    let all = fill(&mut book, rows, nonce);
    let done = put_and_drop(&mut book, &row_of(nonce, rows), times);
    mixed(all, mixed(done, book.len() as u64))
}

/// Files so many rows in a book, and then looks for rows by their peer SPIs, many times.
pub(crate) fn found<B: Book + Drop>(mut book: B, rows: u32, nonce: KeptNonce, times: u32) -> u64
    ensures { result ≡ then_done (found times) (filled nonce rows (B.Book.shelf book)) }
{
    let all = fill(&mut book, rows, nonce);
    mixed(all, find(&book, times))
}

/// Files so many rows in a book, and then reads rows by their own SPIs, many times.
pub(crate) fn peers_read<B: Book + Drop>(
    mut book: B,
    rows: u32,
    nonce: KeptNonce,
    times: u32,
) -> u64
    ensures { result ≡ then_done (peers_read times) (filled nonce rows (B.Book.shelf book)) }
{
    let all = fill(&mut book, rows, nonce);
    mixed(all, read(&book, times))
}
