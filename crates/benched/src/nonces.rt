//! Nonces compared.
ghost use Rattle.std.specs.Prelude.{◌≡◌, ◌/◌};
ghost use Rattle.benched.specs.Nonces.{exchanged_in, lower_number, loser_number, exchange_at, lowers, losers, four};

use crate::mixed::{last, mixed};
use nonce::Nonce;
use nonce::order::Exchanged;
use nonce::order::compare::{loser, lower};
use nonce::side::Side;

/// The nonces of an exchange, as octets.
#[repr(C)]
#[derive(Clone, Copy)]
pub struct NoncePair {
    pub initiator: [u8; 32],
    pub responder: [u8; 32],
}

/// The exchange with these nonces.
fn exchanged(pair: &NoncePair) -> Option<Exchanged>
    ensures { result ≡ exchanged_in pair.now }
{
    Some(Exchanged {
        initiator: Nonce::new(&pair.initiator)?,
        responder: Nonce::new(&pair.responder)?,
    })
}

/// A number of the lower of one exchange's initiator's nonce and another's responder's.
fn lower_number(a: &Option<Exchanged>, b: &Option<Exchanged>) -> u64
    ensures { result ≡ lower_number a.now b.now }
{
    match (a, b) {
        (Some(a), Some(b)) => last(lower(&a.initiator, &b.responder)),
        _ => 0,
    }
}

/// A number of the loser, where A rekeyed an SA by one exchange and B by another.
fn loser_number(a: &Option<Exchanged>, b: &Option<Exchanged>) -> u64
    ensures { result ≡ loser_number a.now b.now }
{
    match (a, b) {
        (Some(a), Some(b)) => match loser(a, b) {
            Side::A => 0,
            Side::B => 1,
        },
        _ => 0,
    }
}

/// The exchange at a place of four, which come round and round.
fn exchange_at(four: &[Option<Exchanged>; 4], i: u32) -> &Option<Exchanged>
    ensures { result.now ≡ exchange_at four.now i }
{
    &four[(i % 4) as usize]
}

fn lowers(four: &[Option<Exchanged>; 4], times: u32) -> u64
    ensures { result ≡ lowers four.now times }
{
    (0..times).fold(0, |all, i| {
        mixed(
            all,
            lower_number(exchange_at(four, i), exchange_at(four, i / 4)),
        )
    })
}

fn losers(four: &[Option<Exchanged>; 4], times: u32) -> u64
    ensures { result ≡ losers four.now times }
{
    (0..times).fold(0, |all, i| {
        mixed(
            all,
            loser_number(exchange_at(four, i), exchange_at(four, i / 4)),
        )
    })
}

/// Asks many times for the lower of two nonces: of four exchanges, each with each in turn.
#[unsafe(no_mangle)]
pub extern "C" fn benched_lower(
    a: &NoncePair,
    b: &NoncePair,
    c: &NoncePair,
    d: &NoncePair,
    times: u32,
) -> u64
    ensures { result ≡ lowers (four a.now b.now c.now d.now) times }
{
    let four = [exchanged(a), exchanged(b), exchanged(c), exchanged(d)];
    lowers(&four, times)
}

/// Asks many times for the loser of two of four exchanges, each with each in turn.
#[unsafe(no_mangle)]
pub extern "C" fn benched_loser(
    a: &NoncePair,
    b: &NoncePair,
    c: &NoncePair,
    d: &NoncePair,
    times: u32,
) -> u64
    ensures { result ≡ losers (four a.now b.now c.now d.now) times }
{
    let four = [exchanged(a), exchanged(b), exchanged(c), exchanged(d)];
    losers(&four, times)
}
