//! Short runs over the channel and over the book.
use crate::any_order::Drawer;
use crate::newest::Newest;
use book::audit::audit;
use book::row::{Beginner, Row, RowState};
use book::{Book, BookRefusal};
use channel::channel::Channel;
use channel::marker::Marker;
use channel::sent::Sent;
use nonce::side::Side;
use std::test::Fail;

/// The datagram that comes to an end: its length and its last octet.
fn next<C: Channel>(channel: &mut C, at: Side) -> Option<(usize, u8)> {
    let mut room = [0; 256];
    let len = channel.receive(at, &mut room)?;
    let last = room.get(..len)?.last()?;
    Some((len, *last))
}

/// The newest comes, again and again; an older one never does.
#[test]
fn newest_comes(rt: HostRuntime) -> Result<(), Fail> {
    let mut channel = Newest::new(32).ok_or("not made")?;
    assert_eq!(rt; next(&mut channel, Side::B), None);
    assert_eq!(rt; channel.send(Side::B, b"ab"), Sent::Taken);
    assert_eq!(rt; next(&mut channel, Side::B), Some((2, b'b')));
    assert_eq!(rt; channel.send(Side::B, b"c"), Sent::Taken);
    assert_eq!(rt; next(&mut channel, Side::B), Some((1, b'c')));
    assert_eq!(rt; next(&mut channel, Side::B), Some((1, b'c')));
    assert_eq!(rt; next(&mut channel, Side::A), None);
    Ok(())
}

#[test]
fn lengths(rt: HostRuntime) -> Result<(), Fail> {
    assert!(rt; Newest::new(257).is_none());
    let mut channel = Newest::new(32).ok_or("not made")?;
    assert_eq!(rt; channel.send(Side::A, &[7; 32]), Sent::Taken);
    assert_eq!(rt; channel.send(Side::A, &[8; 33]), Sent::NotTaken);
    assert_eq!(rt; channel.send(Side::A, &[]), Sent::NotTaken);
    assert_eq!(rt; channel.receive(Side::A, &mut [0; 31]), None);
    assert_eq!(rt; next(&mut channel, Side::A), Some((32, 7)));
    Ok(())
}

/// A marker goes over it as over any channel.
#[test]
fn under_a_marker(rt: HostRuntime) -> Result<(), Fail> {
    let mut marker = Marker::over(Newest::new(256).ok_or("not made")?);
    assert_eq!(rt; marker.longest(), 252);
    assert_eq!(rt; marker.send(Side::A, b"x"), Sent::Taken);
    assert_eq!(rt; next(&mut marker, Side::A), Some((1, b'x')));
    assert_eq!(rt; next(&mut marker.into_below(), Side::A), Some((5, b'x')));
    Ok(())
}

/// A row that stands, with this own and peer SPI.
fn row(own: u32, peer: u32) -> Row {
    Row {
        own,
        peer,
        state: RowState::Standing,
        ..Row::default()
    }
}

/// The own SPIs of the first three rows by rising own SPI.
fn first_three(book: &Drawer) -> (Option<u32>, Option<u32>, Option<u32>) {
    let first = book.next(0);
    let second = first.and_then(|own| book.next(own));
    (first, second, second.and_then(|own| book.next(own)))
}

/// Rows that come in any order are seen by rising own SPI.
#[test]
fn rises(rt: HostRuntime) -> Result<(), Fail> {
    let mut book = Drawer::new(rt.alloc(), 3)?;
    book.put(row(500, 9))?;
    book.put(row(300, 8))?;
    book.put(row(400, 9))?;
    assert_eq!(rt; first_three(&book), (Some(300), Some(400), Some(500)));
    assert_eq!(rt; book.find(9), Some(400));
    book.write(row(300, 9))?;
    assert_eq!(rt; book.find(9), Some(300));
    assert_eq!(rt; first_three(&book), (Some(300), Some(400), Some(500)));
    book.remove(400)?;
    assert_eq!(rt; first_three(&book), (Some(300), Some(500), None));
    assert_eq!(rt; book.len(), 2);
    Ok(())
}

/// Each refusal, and that the room of a removed row is used again.
#[test]
fn refuses(rt: HostRuntime) -> Result<(), Fail> {
    let mut book = Drawer::new(rt.alloc(), 1)?;
    assert_eq!(rt; book.capacity(), 1);
    assert_eq!(rt; book.put(row(255, 1)), Err(BookRefusal::Reserved));
    assert_eq!(rt; book.write(row(256, 1)), Err(BookRefusal::Absent));
    assert_eq!(rt; book.remove(256), Err(BookRefusal::Absent));
    for own in 256..300 {
        assert!(rt; book.read(own).is_err());
        book.put(row(own, 1))?;
        assert_eq!(rt; book.put(row(own, 2)), Err(BookRefusal::Present));
        assert_eq!(rt; book.put(row(900, 2)), Err(BookRefusal::Full));
        assert_eq!(rt; book.read(own)?.peer, 1);
        book.remove(own)?;
    }
    assert_eq!(rt;
        Drawer::new(rt.alloc(), 0)?.put(row(256, 1)),
        Err(BookRefusal::Full)
    );
    Ok(())
}

#[test]
fn audits(rt: HostRuntime) -> Result<(), Fail> {
    let mut a = Drawer::new(rt.alloc(), 4)?;
    let mut b = Drawer::new(rt.alloc(), 2)?;
    a.put(row(700, 800))?;
    a.put(row(600, 900))?;
    b.put(Row {
        began: Beginner::Peer,
        ..row(900, 600)
    })?;
    assert_eq!(rt; audit(&a, &b).ok_or("none alone")?.row.own, 700);
    a.remove(700)?;
    assert!(rt; audit(&a, &b).is_none());
    Ok(())
}
