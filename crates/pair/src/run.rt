//! Calls of two ends, one after the other.
ghost use Rattle.std.specs.Prelude.{◌≡◌, [], ◌∷◌, IsOk, IfOk, IfErr};
ghost use Rattle.calls.specs.Plain.{plain_call, plain_move, plain_moves};
ghost use Rattle.law.specs.Runs.{Called, Step};
ghost use Rattle.law.specs.Laws.{Lawful, GoesOn};
ghost use Rattle.pair.specs.Worlds.{world};

use crate::Pair;
use book::Book;
use calls::answers::Answer;
use calls::moves::{Call, Move};
use channel::channel::Channel;
use endpoint::Endpoint;
use nonce::side::Side;
use std::alloc::{AllocError, Global};

/// A call of one end.
fn call_of<B: Book, C: Channel>(end: &mut Endpoint<B>, channel: &mut C, call: Call<&[u8]>) -> Answer
    ensures { Called C.Channel.behaviour end.old channel.old (plain_call call.entry) result end.new channel.new }
{
    match call {
        Call::Create { nonce } => Answer::Asked(end.create(channel, nonce)),
        Call::Rekey { own, nonce } => Answer::Asked(end.rekey(channel, own, nonce)),
        Call::Delete { own } => Answer::Asked(end.delete(channel, own)),
        Call::Check => Answer::Asked(end.check(channel)),
        Call::Resend => Answer::Resent(end.resend(channel)),
        Call::Deliver { nonce } => Answer::Heard(end.deliver(channel, nonce)),
    }
}

impl<P: Book, Q: Book, C: Channel> Pair<P, Q, C> {
    /// What a call of one of the two ends does.
    fn step(&mut self, next: Move<&[u8]>) -> Answer
        ensures { Step C.Channel.behaviour (world self.old) (plain_move next.entry) result (world self.new) }
    {
        match next.side {
            Side::A => call_of(&mut self.a, &mut self.channel, next.call),
            Side::B => call_of(&mut self.b, &mut self.channel, next.call),
        }
    }

    /// A call of one of the two ends. Whatever was called before, all of it together keeps the law, as it does with `run`.
    pub fn call(&mut self, next: Move<&[u8]>) -> Answer
        ensures step { Step C.Channel.behaviour (world self.old) (plain_move next.entry) result (world self.new) }
        ensures goes_on { GoesOn C.Channel.behaviour (world self.old) (plain_move next.entry ∷ []) (result ∷ []) (world self.new) }
    {
        self.step(next)
    }

    /// Makes each call in turn, and gives their answers. Where there is no memory for these, no call is made; for no answers none
    /// is needed.
    ///
    /// What happens keeps the law of two ends, over any channel and any books: at every moment of a run from the making of both
    /// ends, over a channel from which nothing may come, mirrors, succession and rest hold. `law` says so of these calls where they
    /// are the first, `goes_on` of them together with those before.
    pub fn run(&mut self, heap: Global, moves: &[Move<&[u8]>]) -> Result<Vec<Answer>, AllocError>
        ensures law { IfOk result (λ answers. Lawful C.Channel.behaviour (world self.old) (plain_moves moves.now) answers.items (world self.new)) }
        ensures goes_on { IfOk result (λ answers. GoesOn C.Channel.behaviour (world self.old) (plain_moves moves.now) answers.items (world self.new)) }
        ensures nothing { IfErr result (λ _. self.new ≡ self.old) }
        ensures memory { moves.now ≡ [] → IsOk result }
    {
        let mut answers = Vec::with_capacity(heap, moves.len())?;
        for &next in moves {
            answers.push(self.step(next)).unwrap();
        }
        Ok(answers)
    }
}
