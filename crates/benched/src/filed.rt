//! Books of both kinds filled and asked. What is answered does not depend on the kind.
ghost use Rattle.std.specs.Prelude.{◌≡◌};
ghost use Rattle.book.specs.Shelves.{empty_shelf};
ghost use Rattle.benched.specs.Books.{kept_in, filled, counted, found, peers_read, then_done, put_and_drop_number};

use crate::books::{filled, found, kept_in, peers_read, put_and_dropped};
use ordered::OrderedBook;
use table::TableBook;

/// Makes a table or an ordered book, and files so many rows in it.
#[unsafe(no_mangle)]
pub extern "C" fn benched_fill(table: bool, rows: u32, nonce: &[u8]) -> u64
    ensures { result ≡ counted (filled (kept_in nonce.now) rows (empty_shelf 16)) }
{
    let nonce = kept_in(nonce);
    if table {
        filled(TableBook::new(), rows, nonce)
    } else {
        filled(OrderedBook::new(), rows, nonce)
    }
}

/// With so many rows in a book, puts the next and drops it again, many times.
#[unsafe(no_mangle)]
pub extern "C" fn benched_put_and_drop(table: bool, rows: u32, nonce: &[u8], times: u32) -> u64
    ensures { result ≡ put_and_drop_number (kept_in nonce.now) rows times (empty_shelf 16) }
{
    let nonce = kept_in(nonce);
    if table {
        put_and_dropped(TableBook::new(), rows, nonce, times)
    } else {
        put_and_dropped(OrderedBook::new(), rows, nonce, times)
    }
}

/// With so many rows in a book, looks for rows by their peer SPIs, many times.
#[unsafe(no_mangle)]
pub extern "C" fn benched_find(table: bool, rows: u32, nonce: &[u8], times: u32) -> u64
    ensures { result ≡ then_done (found times) (filled (kept_in nonce.now) rows (empty_shelf 16)) }
{
    let nonce = kept_in(nonce);
    if table {
        found(TableBook::new(), rows, nonce, times)
    } else {
        found(OrderedBook::new(), rows, nonce, times)
    }
}

/// With so many rows in a book, reads rows by their own SPIs, many times.
#[unsafe(no_mangle)]
pub extern "C" fn benched_read(table: bool, rows: u32, nonce: &[u8], times: u32) -> u64
    ensures { result ≡ then_done (peers_read times) (filled (kept_in nonce.now) rows (empty_shelf 16)) }
{
    let nonce = kept_in(nonce);
    if table {
        peers_read(TableBook::new(), rows, nonce, times)
    } else {
        peers_read(OrderedBook::new(), rows, nonce, times)
    }
}
