//! Two ends over a queue, from their making on.
ghost use Rattle.std.specs.Prelude.{◌≡◌, [], IfSome, IsSome, length};
ghost use Rattle.bottoms.specs.Bottoms.{queue_behaves};
ghost use Rattle.calls.specs.Plain.{plain_moves};
ghost use Rattle.law.specs.Runs.{Start};
ghost use Rattle.pair.specs.Worlds.{world};
ghost use Rattle.benched.specs.Plays.{answers_number, play_number, Played};

use crate::mixed::mixed;
use book::Book;
use bottoms::queue::Queue;
use calls::answers::Answer;
use calls::making::{First, Making};
use calls::moves::Move;
use pair::Pair;
use std::alloc::Global;

/// What the two ends are made with.
const MAKING: Making = Making {
    initiator: 0x0102030405060708,
    responder: 0x1112131415161718,
    a: First { id: 0, spi: 1000 },
    b: First { id: 0, spi: 2000 },
};

/// A number made of all answers.
fn answers_number(answers: &[Answer]) -> u64
    ensures { result ≡ answers_number answers.now }
{
    answers
        .iter()
        .fold(0, |all, answer| mixed(all, u64::from(answer.number())))
}

/// A number made of the answers and of what is left.
fn play_number<P: Book, Q: Book>(answers: &[Answer], pair: &Pair<P, Q, Queue>) -> u64
    ensures { result ≡ play_number answers.now (world pair.now) }
{
    let left = mixed(pair.a().book().len() as u64, pair.b().book().len() as u64);
    let quiet = pair.a().is_quiet() && pair.b().is_quiet();
    mixed(mixed(answers_number(answers), left), u64::from(quiet))
}

/// Makes two ends and makes each call in turn: a number made of the answers and of what is left.
pub(crate) fn play<P: Book + Drop, Q: Book + Drop>(
    heap: Global,
    a: P,
    b: Q,
    moves: &[Move<&[u8]>],
) -> Option<u64>
    ensures played { IfSome result (Played (plain_moves moves.now)) }
    ensures memory { moves.now ≡ [] → length (P.Book.shelf a).rows ≡ 0 → length (Q.Book.shelf b).rows ≡ 0 → IsSome result }
{
    // by patterns and not by `?`, since a pair is large and is not to be moved more than it has to be
    let Ok(queue) = Queue::new(160) else {
        return None;
    };
    let Ok(mut pair) = Pair::new(MAKING, a, b, queue) else {
        return None;
    };
    match pair.run(heap, moves) {
        Ok(answers) => Some(play_number(answers.as_slice(), &pair)),
        Err(_) => None,
    }
}
