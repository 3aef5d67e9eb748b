//! What the calls of an end answer.
ghost use Rattle.std.specs.Prelude.{◌≡◌};
ghost use Rattle.numbered.specs.Apart.{apart_by};
ghost use Rattle.calls.specs.Numbers.{delivered_number, delivered_of, delivered_told, told_number, answer_number};

use crate::refusals::{AskRefusal, DeliverRefusal, ResendRefusal};
use channel::sent::Sent;
use numbered::Numbered;

/// What a delivery did, and whether the channel took what it sent.
#[derive(Clone, Copy)]
pub enum Delivered {
    /// A message was processed. Where nothing is to be sent then, it counts as taken.
    Done(Sent),
    /// A request came once more, and its stored reply was sent again.
    Again(Sent),
}

/// The answer of a call.
#[derive(Clone, Copy)]
pub enum Answer {
    /// Of create, rekey, delete and check.
    Asked(Result<Sent, AskRefusal>),
    /// Of resend.
    Resent(Result<Sent, ResendRefusal>),
    /// Of deliver.
    Heard(Result<Delivered, DeliverRefusal>),
}

impl Numbered for Delivered {
    ghost number_of = { delivered_number };

    fn number(self) -> u16 {
        match self {
            Delivered::Done(sent) => sent.number(),
            Delivered::Again(sent) => 2 + sent.number(),
        }
    }

    ghost apart = { apart_by delivered_number delivered_of delivered_told };
}

/// The number of what is done, or of what turns it down.
fn told<T: Numbered, E: Numbered>(answer: Result<T, E>) -> u16
    ensures { result ≡ told_number T.Numbered.number_of E.Numbered.number_of answer }
{
    match answer {
        Ok(done) => done.number(),
        Err(refusal) => refusal.number(),
    }
}

impl Answer {
    /// The number of the answer. Not `Numbered`: an ask and a resend that are done are both 0.
    pub fn number(self) -> u16
        ensures { result ≡ answer_number self }
    {
        match self {
            Answer::Asked(answer) => told(answer),
            Answer::Resent(answer) => told(answer),
            Answer::Heard(answer) => told(answer),
        }
    }
}
