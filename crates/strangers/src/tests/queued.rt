//! Two ends over a queue come to rest.
use super::ends::at_rest;
use crate::any_order::Drawer;
use crate::queued::{Queued, made};
use book::Book;
use calls::making::{First, Making};
use calls::moves::{Call, Move};
use nonce::side::Side;
use std::alloc::{AllocError, Global};
use std::test::Fail;

/// A call of an end, by its number.
fn ask(
    heap: Global,
    pair: &mut Queued,
    side: Side,
    call: Call<&[u8]>,
) -> Result<Option<u16>, AllocError> {
    let answers = pair.run(heap, &[Move { side, call }])?;
    Ok(answers.first().map(|answer| answer.number()))
}

/// A delivery to an end.
fn delivery(side: Side) -> Move<&'static [u8]> {
    Move {
        side,
        call: Call::Deliver { nonce: &[0x33; 16] },
    }
}

/// A delivery to A and then one to B, eight times.
fn eight_rounds(heap: Global, pair: &mut Queued) -> Result<(), AllocError> {
    let round = [delivery(Side::A), delivery(Side::B)];
    for _ in 0..8 {
        pair.run(heap, &round)?;
    }
    Ok(())
}

/// Both rekey one SA at once; eight rounds later one SA is left, and it is the same at both ends.
#[test]
fn rests(rt: HostRuntime) -> Result<(), Fail> {
    let heap = rt.alloc();
    let making = Making {
        initiator: 1,
        responder: 2,
        a: First { id: 1, spi: 1000 },
        b: First { id: 1, spi: 2000 },
    };
    let a = Drawer::new(heap, 4)?;
    let b = Drawer::new(heap, 4)?;
    let mut pair = made(making, a, b).ok_or("not made")?;
    assert_eq!(rt;
        ask(
            heap,
            &mut pair,
            Side::A,
            Call::Create { nonce: &[0x11; 16] }
        )?,
        Some(0)
    );
    eight_rounds(heap, &mut pair)?;
    assert_eq!(rt; ask(heap, &mut pair, Side::A, Call::Check)?, Some(0));
    eight_rounds(heap, &mut pair)?;
    assert!(rt; at_rest(&pair));
    assert_eq!(rt;
        ask(
            heap,
            &mut pair,
            Side::A,
            Call::Rekey {
                own: 1000,
                nonce: &[0x44; 16]
            }
        )?,
        Some(0)
    );
    assert_eq!(rt;
        ask(
            heap,
            &mut pair,
            Side::B,
            Call::Rekey {
                own: 2000,
                nonce: &[0x55; 16]
            }
        )?,
        Some(0)
    );
    assert!(rt; !at_rest(&pair));
    eight_rounds(heap, &mut pair)?;
    assert!(rt; at_rest(&pair));
    assert_eq!(rt; pair.a().book().len(), 1);
    assert_eq!(rt; pair.b().book().len(), 1);
    Ok(())
}
