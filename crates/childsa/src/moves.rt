//! The calls of the two ends.
ghost use Rattle.std.specs.Prelude.{◌≡◌, ◌++◌, IfOk, string_bytes, codes, decimal};
ghost use Rattle.texts.specs.Told.{numbers_text};

use crate::commands::Line;
use crate::words::Words;
use crate::wrong::{Stop, Wrong};
use calls::answers::Answer;
use calls::moves::{Call, Move};
use nonce::side::Side;
use std::alloc::{AllocError, Global};
use texts::told::Told;

/// `A CALL`, `B CALL`: a call of an end.
pub(crate) fn call(line: &mut Line<'_>, side: Side) -> Result<String, Stop> {
    let (call, nonce) = read_call(&mut line.words)?;
    line.words.end()?;
    let call = with_nonce(call, nonce.as_slice());
    let ends = line.desk.ends.as_mut().ok_or(Wrong::NoEnds)?;
    let heap = line.words.heap;
    let answer = ends.call(Move { side, call })?;
    let itself = line.words.itself()?;
    Ok(numbers_text(heap, itself.as_str(), &[answer])?)
}

/// `round N OCTETS`: a delivery to A and then one to B, N times.
pub(crate) fn round(line: &mut Line<'_>) -> Result<String, Stop> {
    let times = read_times(&mut line.words)?;
    let nonce = line.words.nonce_octets()?;
    line.words.end()?;
    let nonce = nonce.as_slice();
    let ends = line.desk.ends.as_mut().ok_or(Wrong::NoEnds)?;
    let mut answers = Vec::new(line.words.heap);
    for _ in 0..times {
        for side in [Side::A, Side::B] {
            let call = Call::Deliver { nonce };
            answers.push(ends.call(Move { side, call })?)?;
        }
    }
    let itself = line.words.itself()?;
    Ok(numbers_text(line.words.heap, itself.as_str(), answers.as_slice())?)
}

/// A call, and the octets of its nonce, which the call does not hold yet.
// a match on the word: behind each word others are read
fn read_call(words: &mut Words<'_>) -> Result<(Call<()>, Vec<u8>), Stop> {
    let expected = "`create`, `rekey`, `delete`, `check`, `resend` or `deliver`";
    match words.word(expected)? {
        "create" => Ok((Call::Create { nonce: () }, words.nonce_octets()?)),
        "rekey" => {
            let own = words.number("an own SPI")?;
            Ok((Call::Rekey { own, nonce: () }, words.nonce_octets()?))
        }
        "delete" => {
            let own = words.number("an own SPI")?;
            Ok((Call::Delete { own }, Vec::new(words.heap)))
        }
        "check" => Ok((Call::Check, Vec::new(words.heap))),
        "resend" => Ok((Call::Resend, Vec::new(words.heap))),
        "deliver" => Ok((Call::Deliver { nonce: () }, words.nonce_octets()?)),
        word => words.unexpected(word, expected),
    }
}

/// A call with the octets of its nonce.
fn with_nonce(call: Call<()>, nonce: &[u8]) -> Call<&[u8]> {
    match call {
        Call::Create { .. } => Call::Create { nonce },
        Call::Rekey { own, .. } => Call::Rekey { own, nonce },
        Call::Delete { own } => Call::Delete { own },
        Call::Check => Call::Check,
        Call::Resend => Call::Resend,
        Call::Deliver { .. } => Call::Deliver { nonce },
    }
}

/// How often a round is made: 1 to 100 times.
fn read_times(words: &mut Words<'_>) -> Result<u32, Stop> {
    let times = words.number("how often, 1 to 100")?;
    if !(1..=100).contains(&times) {
        return Err(Wrong::Times(times).into());
    }
    Ok(times)
}

/// What is printed of a making: its words, and the number of the answer.
pub(crate) fn told(heap: Global, itself: &str, number: u16) -> Result<String, AllocError>
    ensures { IfOk result (λ s. string_bytes s ≡ itself.now ++ (codes " = " ++ decimal number)) }
{
    format!(in heap; "{itself} = {number}")
}

/// What is printed of calls: their words, and the numbers of their answers in order.
fn numbers_text(heap: Global, itself: &str, answers: &[Answer]) -> Result<String, AllocError>
    ensures { IfOk result (λ s. string_bytes s ≡ itself.now ++ (codes " =" ++ numbers_text answers.now)) }
{
    let numbers = Told(answers);
    format!(in heap; "{itself} ={numbers}")
}
