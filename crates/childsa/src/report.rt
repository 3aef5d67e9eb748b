//! What the two ends are after the calls so far.
use crate::books::{audit_text, rows_text};
use crate::commands::Line;
use crate::ends::Ends;
use crate::wrong::{Stop, Wrong};
use book::Book;
use chosen::any_book::AnyBook;
use nonce::side::Side;
use std::alloc::{AllocError, Global};
use texts::told::Told;

/// `books`: the rows of both books, and what an audit finds.
pub(crate) fn books(line: &mut Line<'_>) -> Result<String, Stop> {
    line.words.end()?;
    let heap = line.words.heap;
    let ends = line.desk.ends.as_ref().ok_or(Wrong::NoEnds)?;
    let a = ends.pair.a().book();
    let b = ends.pair.b().book();
    let rows_a = book_text(heap, Side::A, a)?;
    let rows_b = book_text(heap, Side::B, b)?;
    let found = audit_text(heap, a, b)?;
    Ok(format!(in heap; "{rows_a}\n{rows_b}\n{found}")?)
}

/// `ends`: a line for each end.
pub(crate) fn ends(line: &mut Line<'_>) -> Result<String, Stop> {
    line.words.end()?;
    let Ends { pair, .. } = line.desk.ends.as_ref().ok_or(Wrong::NoEnds)?;
    let a = Told(pair.a());
    let b = Told(pair.b());
    Ok(format!(in line.words.heap; "A {a}\nB {b}")?)
}

/// `ladder`: the messages so far as a picture.
pub(crate) fn ladder(line: &mut Line<'_>) -> Result<String, Stop> {
    line.words.end()?;
    let Ends { ladder, .. } = line.desk.ends.as_ref().ok_or(Wrong::NoEnds)?;
    Ok(ladder.text().to_string(line.words.heap)?)
}

/// The book of an end: its kind, how many rows it has, and a line for each by rising own SPI.
fn book_text(heap: Global, name: Side, book: &AnyBook) -> Result<String, AllocError> {
    let kind = book.kind();
    let rows = rows_text(heap, book)?;
    let mut text = format!(in heap; "book {name} {kind}, {rows}")?;
    let mut last = 0;
    // as many steps as there are rows: each is found above the last
    for _ in 0..book.len() {
        let Some(own) = book.next(last) else { break };
        if let Ok(row) = book.read(own) {
            let row = Told(row).to_string(heap)?;
            text.push_str("\n")?;
            text.push_str(row.as_str())?;
        }
        last = own;
    }
    Ok(text)
}
