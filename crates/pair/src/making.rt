//! How two ends are made over a channel.
ghost use Rattle.std.specs.Prelude.{◌≡◌, IfOk, IfErr};
ghost use Rattle.std.specs.Result.{result_map_both};
ghost use Rattle.law.specs.Runs.{Clean, Start};
ghost use Rattle.pair.specs.Worlds.{world, made_world};

use crate::Pair;
use book::Book;
use calls::making::Making;
use calls::refusals::MakingRefusal;
use channel::channel::Channel;
use endpoint::Endpoint;
use endpoint::making::Unmade as UnmadeEnd;
use nonce::side::Side;

/// No ends were made, for this reason; the books and the channel are given back.
#[derive(Drop)]
pub struct Unmade<P, Q, C> {
    pub channel: C,
    pub a: P,
    pub b: Q,
    pub refusal: MakingRefusal,
}

impl<P: Book, Q: Book, C: Channel> Pair<P, Q, C> {
    /// Two ends with nothing in their books, A's and B's, over a channel.
    pub fn new(making: Making, a: P, b: Q, channel: C) -> Result<Pair<P, Q, C>, Unmade<P, Q, C>>
        ensures value { result_map_both world (λ u. u.refusal) result ≡ made_world making (P.Book.shelf a) (Q.Book.shelf b) channel }
        ensures back { IfErr result (λ u. (u.a ≡ a) × (u.b ≡ b) × (u.channel ≡ channel)) }
        ensures start { IfOk result (λ p. Clean C.Channel.behaviour channel → Start C.Channel.behaviour (world p)) }
    {
        // refusals leave early: on the one way that is left, channel and books are moved least
        if b.len() != 0 {
            return Err(Unmade {
                refusal: MakingRefusal::BookNotEmpty,
                a,
                b,
                channel,
            });
        }
        let a = match Endpoint::new(making, Side::A, a) {
            Ok(a) => a,
            Err(UnmadeEnd { refusal, book }) => {
                return Err(Unmade {
                    refusal,
                    a: book,
                    b,
                    channel,
                });
            }
        };
        let b = match Endpoint::new(making, Side::B, b) {
            Ok(b) => b,
            // what is wrong with the numbers was told of A, and the book is empty
            Err(_) => unreachable!(),
        };
        Ok(Pair { a, b, channel })
    }
}
