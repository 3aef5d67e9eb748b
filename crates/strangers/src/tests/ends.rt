//! Two ends over these books and this channel, which loses what was not fetched before the next was sent.
use crate::any_order::Drawer;
use crate::{Strangers, law_for_strangers, made};
use book::Book;
use book::audit::audit;
use calls::making::{First, Making};
use calls::moves::{Call, Move};
use nonce::side::Side;
use nonce::side::Side::{A, B};
use pair::Pair;
use std::alloc::{AllocError, Global};
use std::process::Abort;
use std::test::Fail;

/// Both ends as they are made, with room for so many rows.
fn ends(heap: Global, rows_of_a: usize, rows_of_b: usize) -> Result<Strangers, Fail> {
    let making = Making {
        initiator: 1,
        responder: 2,
        a: First { id: 1, spi: 1000 },
        b: First { id: 7, spi: 2000 },
    };
    let a = Drawer::new(heap, rows_of_a)?;
    let b = Drawer::new(heap, rows_of_b)?;
    Ok(made(making, a, b, 160).ok_or("not made")?)
}

/// A call of an end.
fn at(side: Side, call: Call<&[u8]>) -> Move<&[u8]> {
    Move { side, call }
}

fn create(side: Side) -> Move<&'static [u8]> {
    at(side, Call::Create { nonce: &[0x11; 16] })
}

fn rekey(side: Side, own: u32, nonce: &[u8]) -> Move<&[u8]> {
    at(side, Call::Rekey { own, nonce })
}

fn check(side: Side) -> Move<&'static [u8]> {
    at(side, Call::Check)
}

fn resend(side: Side) -> Move<&'static [u8]> {
    at(side, Call::Resend)
}

/// A delivery to an end.
fn get(side: Side) -> Move<&'static [u8]> {
    at(side, Call::Deliver { nonce: &[0x33; 16] })
}

/// The numbers of what the calls answer.
fn numbers(
    heap: Global,
    pair: &mut Strangers,
    moves: &[Move<&[u8]>],
) -> Result<Vec<u16>, AllocError> {
    let answers = law_for_strangers(pair, heap, moves)?;
    answers.iter().map(|answer| answer.number()).collect(heap)
}

/// Whether both ends are quiet, and each row of either book has its mirror in the other.
pub(super) fn at_rest<P: Book, Q: Book, C>(pair: &Pair<P, Q, C>) -> bool {
    let (a, b) = (pair.a(), pair.b());
    a.is_quiet() && b.is_quiet() && audit(a.book(), b.book()).is_none()
}

/// A makes an SA, and checks, so that B knows that A has it. What is in the channel comes again: the request is answered once
/// more, and the response does not count.
fn make_one(rt: &impl Abort, heap: Global, pair: &mut Strangers) -> Result<(), Fail> {
    let asked = [create(A), get(B), get(A), get(B), get(A)];
    assert_eq!(rt;
        numbers(heap, pair, &asked)?.as_slice(),
        [0, 0, 0, 2, 34].as_slice()
    );
    let confirmed = [check(A), get(B), get(A)];
    assert_eq!(rt;
        numbers(heap, pair, &confirmed)?.as_slice(),
        [0; 3].as_slice()
    );
    assert!(rt; at_rest(pair));
    Ok(())
}

/// Both rekey the SA at once, and each message that was lost is sent again. A's exchange has the lowest of the four nonces, so
/// the new SA of B's is left.
#[test]
fn both_rekey(rt: HostRuntime) -> Result<(), Fail> {
    let heap = rt.alloc();
    let mut pair = ends(heap, 4, 4)?;
    make_one(&rt, heap, &mut pair)?;
    let asked = [rekey(A, 1000, &[0x22; 16]), rekey(B, 2000, &[0x55; 16])];
    assert_eq!(rt;
        numbers(heap, &mut pair, &asked)?.as_slice(),
        [0; 2].as_slice()
    );
    // B's response takes the place of its request, and then the request, once more, that of the response
    let answered = [get(B), resend(B), get(A), get(B)];
    assert_eq!(rt;
        numbers(heap, &mut pair, &answered)?.as_slice(),
        [0; 4].as_slice()
    );
    assert!(rt; !at_rest(&pair));
    // B's response, once more, takes the place of its Delete
    let settled = [resend(A), get(B), get(A)];
    assert_eq!(rt;
        numbers(heap, &mut pair, &settled)?.as_slice(),
        [0, 2, 0].as_slice()
    );
    // A's response to that Delete takes the place of A's own
    let deleted = [resend(B), get(A), get(B), resend(A), get(B), get(A)];
    assert_eq!(rt;
        numbers(heap, &mut pair, &deleted)?.as_slice(),
        [0; 6].as_slice()
    );
    assert!(rt; at_rest(&pair));
    assert_eq!(rt; pair.a().book().next(0), Some(1002));
    assert_eq!(rt; pair.b().book().next(0), Some(2001));
    assert_eq!(rt; pair.a().book().len(), 1);
    assert_eq!(rt; pair.b().book().len(), 1);
    Ok(())
}

/// Where B's drawer is full, what A asks for comes to nothing; where A's is, A does not ask.
#[test]
fn full_drawers(rt: HostRuntime) -> Result<(), Fail> {
    let heap = rt.alloc();
    let mut pair = ends(heap, 2, 1)?;
    make_one(&rt, heap, &mut pair)?;
    let refused = [create(A), create(A), get(B), get(A)];
    assert_eq!(rt;
        numbers(heap, &mut pair, &refused)?.as_slice(),
        [0, 21, 0, 0].as_slice()
    );
    assert!(rt; at_rest(&pair));
    let mut pair = ends(heap, 1, 2)?;
    make_one(&rt, heap, &mut pair)?;
    assert_eq!(rt;
        numbers(heap, &mut pair, &[create(A)])?.as_slice(),
        [27].as_slice()
    );
    assert!(rt; at_rest(&pair));
    Ok(())
}
