//! Messages written.
ghost use Rattle.std.specs.Prelude.{◌≡◌};
ghost use Rattle.wire.specs.Decoding.{decoded};
ghost use Rattle.wire.specs.Encoding.{written, overwritten};
ghost use Rattle.benched.specs.Messages.{write_number, writes, read_and_writes};

use crate::mixed::{mixed, octet_at};
use crate::owned::owned;
use nonce::Nonce;
use numbered::Numbered;
use wire::decode::decode;
use wire::message::{EncodeRefusal, Message};

/// A number made of what a write answers and of the buffer.
fn write_number(answer: Result<usize, EncodeRefusal>, out: &[u8]) -> u64
    ensures { result ≡ write_number answer out.now }
{
    match answer {
        Ok(len) => {
            let last = octet_at(out, len.saturating_sub(1));
            mixed(mixed(len as u64, last), octet_at(out, 23))
        }
        Err(refusal) => u64::from(refusal.number()),
    }
}

/// Writes a message to one buffer many times, each with its number as the Message ID.
fn write_many(mut message: Message<Nonce>, times: u32, out: &mut [u8]) -> u64
    ensures { (result, out.new) ≡ writes message times out.old }
{
    let mut all = 0;
    for id in 0..times {
        message.id = id;
        let answer = message.encode(out);
        all = mixed(all, write_number(answer, out));
    }
    all
}

/// Writes the message that these octets are to one buffer many times, each with its number as the Message ID.
#[unsafe(no_mangle)]
pub extern "C" fn benched_encode(octets: &[u8], out: &mut [u8], times: u32) -> u64
    ensures { (result, out.new) ≡ read_and_writes (decoded octets.now) times out.old }
{
    match decode(octets) {
        Ok(message) => write_many(owned(message), times, out),
        Err(_) => 0,
    }
}
