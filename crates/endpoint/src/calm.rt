//! Fresh rows become Standing.
ghost use Rattle.std.specs.Prelude.{◌≡◌};
ghost use Rattle.book.specs.Shelves.{Shelf, lookup};
ghost use Rattle.law.specs.Rows.{calmed, calm_shelf};
ghost use Rattle.endpoint.specs.Calming.{calmed_at};

use crate::rows::in_state;
use book::Book;
use book::row::RowState;

/// A Fresh row stands from the peer's next request on.
fn calmed(state: RowState) -> RowState
    ensures { result ≡ calmed state }
{
    match state {
        RowState::Fresh => RowState::Standing,
        other => other,
    }
}

/// The row of an own SPI, if it is Fresh, becomes Standing.
fn calm_row<B: Book>(book: &mut B, own: u32)
    ensures { B.Book.shelf book.new ≡ calmed_at (B.Book.shelf book.old) (lookup (B.Book.shelf book.old).rows own) }
{
    if let Ok(row) = book.read(own) {
        let _written = book.write(in_state(row, calmed(row.state)));
    }
}

/// All Fresh rows of a book become Standing.
pub(crate) fn calm<B: Book>(book: &mut B)
    ensures { B.Book.shelf book.new ≡ calm_shelf (B.Book.shelf book.old) }
{
    let mut last = 0;
    while let Some(own) = book.next(last) {
        calm_row(book, own);
        last = own;
    }
}
