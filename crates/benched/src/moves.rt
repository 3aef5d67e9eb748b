//! The calls of a whole rekey and of a whole collision.
ghost use Rattle.std.specs.Prelude.{◌≡◌};
ghost use Rattle.calls.specs.Plain.{plain_move, plain_moves};
ghost use Rattle.benched.specs.Moves.{of, deliver, rekey_moves, collision_moves};

use calls::moves::{Call, Move};
use nonce::side::Side;

fn of(side: Side, call: Call<&[u8]>) -> Move<&[u8]>
    ensures { result ≡ record { side = side; call = call.entry } }
{
    Move { side, call }
}

/// An end takes what has come.
fn deliver(side: Side, nonce: &[u8]) -> Move<&[u8]>
    ensures { plain_move result ≡ deliver side nonce.now }
{
    of(side, Call::Deliver { nonce })
}

/// A makes an SA and rekeys it, and both are quiet.
pub(crate) fn rekey_moves<'a>(low: &'a [u8], high: &'a [u8]) -> [Move<&'a [u8]>; 8]
    ensures { plain_moves result ≡ rekey_moves low.now high.now }
{
    [
        of(Side::A, Call::Create { nonce: low }),
        deliver(Side::B, high),
        deliver(Side::A, high),
        of(
            Side::A,
            Call::Rekey {
                own: 1000,
                nonce: low,
            },
        ),
        deliver(Side::B, high),
        deliver(Side::A, high),
        deliver(Side::B, high),
        deliver(Side::A, high),
    ]
}

/// A makes an SA, both rekey it at once, B's new SA loses, and both are quiet.
pub(crate) fn collision_moves<'a>(low: &'a [u8], high: &'a [u8]) -> [Move<&'a [u8]>; 16]
    ensures { plain_moves result ≡ collision_moves low.now high.now }
{
    [
        of(Side::A, Call::Create { nonce: high }),
        deliver(Side::B, high),
        deliver(Side::A, high),
        of(Side::A, Call::Check),
        deliver(Side::B, high),
        deliver(Side::A, high),
        of(
            Side::A,
            Call::Rekey {
                own: 1000,
                nonce: high,
            },
        ),
        of(
            Side::B,
            Call::Rekey {
                own: 2000,
                nonce: low,
            },
        ),
        deliver(Side::A, high),
        deliver(Side::B, high),
        deliver(Side::A, high),
        deliver(Side::B, high),
        deliver(Side::A, high),
        deliver(Side::B, high),
        deliver(Side::A, high),
        deliver(Side::B, high),
    ]
}
