//! The tests.
use crate::row;
use book::audit::audit;
use book::row::{Beginner, KeptNonce, Row, RowState, Spis};
use book::{Book, BookRefusal};
use nonce::side::Side;
use numbered::Numbered;
use ordered::OrderedBook;
use std::process::Abort;
use std::test::Fail;
use table::TableBook;

/// Whether a change was refused by this number.
fn refused(answer: Result<(), BookRefusal>, number: u16) -> bool {
    answer.is_err_and(|refusal| refusal.number() == number)
}

/// Puts 16 rows, whose hashed places are few.
fn fill<B: Book>(book: &mut B) -> Result<(), Fail> {
    for i in 0..16 {
        book.put(row(4096 - i * 32, i))?;
    }
    Ok(())
}

/// Each rule that turns a call down.
fn refuses<B: Book>(rt: &impl Abort, book: &mut B) -> Result<(), Fail> {
    assert!(rt; refused(book.put(row(255, 1)), 60));
    assert!(rt; refused(book.remove(256), 63));
    assert!(rt; refused(book.write(row(256, 1)), 63));
    assert!(rt; book.read(256).is_err());
    fill(book)?;
    assert!(rt; refused(book.put(row(4096, 7)), 61));
    assert!(rt; refused(book.put(row(4097, 7)), 62));
    assert!(rt; refused(book.put(row(0, 7)), 60));
    assert_eq!(rt; book.len(), book.capacity());
    Ok(())
}

/// Removes each of 16 rows and puts another; no third row is lost.
fn refills<B: Book>(rt: &impl Abort, book: &mut B) -> Result<(), Fail> {
    fill(book)?;
    for i in 0..16 {
        let own = 4096 - i * 32;
        book.remove(own)?;
        assert!(rt; book.read(own).is_err());
        assert_eq!(rt; book.len(), 15);
        book.put(row(own + 1, i))?;
    }
    for i in 0..16 {
        assert_eq!(rt; book.read(4097 - i * 32)?.peer, i);
    }
    Ok(())
}

/// Walks up the rows, and counts them.
fn walks<B: Book>(rt: &impl Abort, book: &mut B) -> Result<(), Fail> {
    fill(book)?;
    let mut last = 0;
    for i in 0..16 {
        let own = 3616 + i * 32;
        assert_eq!(rt; book.next(last), Some(own));
        last = own;
    }
    assert_eq!(rt; book.next(last), None);
    Ok(())
}

/// Looked for by its peer SPI, the lowest row is found, and never an Opening one.
fn finds<B: Book>(rt: &impl Abort, book: &mut B) -> Result<(), Fail> {
    book.put(Row {
        own: 300,
        peer: 9,
        state: RowState::Opening,
        ..Row::default()
    })?;
    assert_eq!(rt; book.find(9), None);
    book.put(row(500, 9))?;
    book.put(row(400, 9))?;
    assert_eq!(rt; book.find(9), Some(400));
    book.write(row(300, 9))?;
    assert_eq!(rt; book.find(9), Some(300));
    book.write(row(400, 8))?;
    book.remove(300)?;
    assert_eq!(rt; book.find(9), Some(500));
    Ok(())
}

/// All of these, each of a book that is new.
fn all<B: Book + Drop, F: Fn() -> B>(rt: &impl Abort, new: F) -> Result<(), Fail>
    requires { F.IsAlwaysCallable new }
{
    refuses(rt, &mut new())?;
    refills(rt, &mut new())?;
    walks(rt, &mut new())?;
    finds(rt, &mut new())
}

#[test]
fn ordered_books(rt: HostRuntime) -> Result<(), Fail> {
    all(&rt, OrderedBook::new)
}

#[test]
fn table_books(rt: HostRuntime) -> Result<(), Fail> {
    all(&rt, TableBook::new)
}

/// A nonce of 20 octets.
fn nonce(octet: u8) -> KeptNonce {
    KeptNonce {
        octets: [octet; 32],
        len: 20,
    }
}

/// A row of A, and the row of the same Child SA as B has it.
fn pair(a: u32, b: u32) -> (Row, Row) {
    let of_a = Row {
        ni: nonce(1),
        nr: nonce(2),
        parent: Spis { own: 6, peer: 7 },
        ..row(a, b)
    };
    let parent = Spis { own: 7, peer: 6 };
    (
        of_a,
        Row {
            own: b,
            peer: a,
            began: Beginner::Peer,
            parent,
            ..of_a
        },
    )
}

/// The side and the own SPI of the row that an audit finds alone.
fn alone<P: Book, Q: Book>(a: &P, b: &Q) -> Option<(Side, u32)> {
    audit(a, b).map(|alone| (alone.side, alone.row.own))
}

#[test]
fn audits(rt: HostRuntime) -> Result<(), Fail> {
    let (of_a, of_b) = pair(256, 999);
    assert!(rt; of_a.mirrors(&of_b) && !of_a.mirrors(&of_a));
    let mut a = OrderedBook::new();
    let mut b = TableBook::new();
    assert_eq!(rt; alone(&a, &b), None);
    a.put(of_a)?;
    assert_eq!(rt; alone(&a, &b), Some((Side::A, 256)));
    assert_eq!(rt; alone(&b, &a), Some((Side::B, 256)));
    b.put(of_b)?;
    assert_eq!(rt; alone(&a, &b), None);
    b.write(Row {
        ni: nonce(2),
        ..of_b
    })?;
    assert_eq!(rt; alone(&a, &b), Some((Side::A, 256)));
    a.remove(256)?;
    assert_eq!(rt; alone(&a, &b), Some((Side::B, 999)));
    Ok(())
}

#[test]
fn numbers(rt: HostRuntime) -> Result<(), Fail> {
    assert_eq!(rt; RowState::Opening.number(), 1);
    assert_eq!(rt; RowState::Closing.number(), 5);
    assert_eq!(rt; Beginner::Peer.number(), 1);
    assert_eq!(rt; BookRefusal::Absent.number(), 63);
    assert!(rt; KeptNonce::default().nonce().is_none());
    let made = nonce(3).nonce().ok_or("no nonce")?;
    assert_eq!(rt; KeptNonce::from(&made).len, 20);
    Ok(())
}

/// A row by default: asked for here, and no SA before it.
#[test]
fn default_row(rt: HostRuntime) -> Result<(), Fail> {
    let row = Row::default();
    assert_eq!(rt; (row.own, row.peer), (0, 0));
    assert_eq!(rt; row.state, RowState::Opening);
    assert_eq!(rt; row.began, Beginner::ThisEnd);
    assert_eq!(rt; row.parent, Spis { own: 0, peer: 0 });
    assert_eq!(rt; (row.ni.len, row.nr.len), (0, 0));
    Ok(())
}
