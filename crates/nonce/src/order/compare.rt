//! How nonces are compared.
ghost use Rattle.std.specs.Prelude.{◌≡◌, ◌≤◌, ◌%◌, length};
ghost use Rattle.nonce.specs.Order.{lower_than, lower_or, lower_of, named, lower_named, lowest_in, loser_by, loser_in, LosesIn};

use crate::Nonce;
use crate::order::{Exchanged, Lowest, Named};
use crate::side::Side;

/// Whether `a` is lower than `b`: the first octets that differ decide, and where none do, `otherwise`.
// eight octets at a time: as numbers, the most significant octet first, they have the order of the octets
fn lower_or(a: &[u8], b: &[u8], otherwise: bool) -> bool
    requires eights_of_a { length a.now % 8 ≡ 0 }
    requires eights_of_b { length b.now % 8 ≡ 0 }
    ensures { result ≡ lower_or a.now b.now otherwise }
{
    match (a.split_first_chunk::<8>(), b.split_first_chunk::<8>()) {
        (Some((first, rest)), Some((other, others))) => {
            let (x, y) = (u64::from_be_bytes(*first), u64::from_be_bytes(*other));
            if x == y {
                lower_or(rest, others, otherwise)
            } else {
                x < y
            }
        }
        _ => otherwise,
    }
}

/// Whether `a` is lower than `b`.
// The octets behind a length are zero, and no octet is lower than zero: so all 32 decide, and then the lengths.
fn precedes(a: &Nonce, b: &Nonce) -> bool
    ensures { result ≡ lower_than a.now b.now }
{
    lower_or(&a.octets, &b.octets, a.len < b.len)
}

/// The octets of the lower of two nonces; of equal ones, of the first.
pub fn lower<'a>(a: &'a Nonce, b: &'a Nonce) -> &'a [u8]
    ensures value { result.now ≡ lower_of a.now b.now }
    ensures least { 16 ≤ length result.now }
    ensures most { length result.now ≤ 32 }
{
    if precedes(b, a) {
        b.as_slice()
    } else {
        a.as_slice()
    }
}

/// The lower of two nonces, each with its name; of equal ones, the first.
// beside `lower`, which has to hand back octets alone: one generic over both would take a way to the octets
fn lower_named<'a>(a: Named<'a>, b: Named<'a>) -> Named<'a>
    ensures { named result ≡ lower_named (named a.entry) (named b.entry) }
{
    if precedes(b.nonce, a.nonce) { b } else { a }
}

/// Which of the four nonces is the lowest; of equal ones, the first.
fn lowest<'a>(a: &'a Exchanged, b: &'a Exchanged) -> Lowest
    ensures { result ≡ lowest_in a.now b.now }
{
    let of_a = lower_named(
        Named {
            name: Lowest::InitiatorOfA,
            nonce: &a.initiator,
        },
        Named {
            name: Lowest::ResponderOfA,
            nonce: &a.responder,
        },
    );
    let of_b = lower_named(
        Named {
            name: Lowest::InitiatorOfB,
            nonce: &b.initiator,
        },
        Named {
            name: Lowest::ResponderOfB,
            nonce: &b.responder,
        },
    );
    lower_named(of_a, of_b).name
}

/// Whose exchange this nonce is of.
// no `From`: a nonce is not a side, it is asked for one
fn exchange_of(nonce: Lowest) -> Side
    ensures { result ≡ loser_by nonce }
{
    match nonce {
        Lowest::InitiatorOfA | Lowest::ResponderOfA => Side::A,
        Lowest::InitiatorOfB | Lowest::ResponderOfB => Side::B,
    }
}

/// Whose new SA loses, where A and B rekeyed one SA at once with these nonces: the one whose exchange has the lowest of
/// the four, or A's where both have it.
pub fn loser(a: &Exchanged, b: &Exchanged) -> Side
    ensures value { result ≡ loser_in a.now b.now }
    ensures lowest { LosesIn result a.now b.now }
{
    exchange_of(lowest(a, b))
}
