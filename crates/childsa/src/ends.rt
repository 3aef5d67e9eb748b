//! The two ends of a script, and how they are made.
ghost use Rattle.std.specs.Prelude.{◌≡◌, [], ◌∷◌, IfOk};
ghost use Rattle.calls.specs.Plain.{plain_move};
ghost use Rattle.law.specs.Laws.{GoesOn};
ghost use Rattle.law.specs.Runs.{Step};
ghost use Rattle.pair.specs.Worlds.{world};
ghost use Rattle.chosen.specs.Piles.{pile_behaves};

use crate::books::read_kind;
use crate::channels::{new_bottom, read_markers_before, read_wanted};
use crate::commands::Line;
use crate::moves::told;
use crate::tap::Tap;
use crate::words::Words;
use crate::wrong::Stop;
use calls::answers::Answer;
use calls::making::{First, Making};
use calls::moves::Move;
use calls::refusals::{DeliverRefusal, MakingRefusal};
use chosen::any_book::AnyBook;
use chosen::pile::{self, Pile};
use nonce::side::Side;
use numbered::Numbered;
use pair::Pair;
use std::alloc::{AllocError, Global};
use texts::ladder::{Event, Fate, Ladder};

/// Two ends over a channel of their own, and the messages that went between them.
#[derive(Drop)]
pub(crate) struct Ends {
    pub(crate) pair: Pair<AnyBook, AnyBook, Tap<Pile>>,
    pub(crate) ladder: Ladder,
}

/// `make CHANNEL ids N N spis N N ike HEX HEX books KIND KIND`: makes the two ends.
pub(crate) fn make(line: &mut Line<'_>) -> Result<String, Stop> {
    let number = place(line)?;
    let words = &mut line.words;
    let itself = words.itself()?;
    Ok(told(words.heap, itself.as_str(), number)?)
}

/// Makes the ends that the words ask for, in the place of those that are there, and gives the number of the answer.
fn place(line: &mut Line<'_>) -> Result<u16, Stop> {
    let heap = line.words.heap;
    let wanted = read_wanted(&mut line.words)?;
    let markers = read_markers_before(&mut line.words, "ids")?;
    let making = read_making(&mut line.words)?;
    line.words.keyword("books")?;
    let (_, a) = read_kind(&mut line.words)?;
    let (_, b) = read_kind(&mut line.words)?;
    line.words.end()?;
    match new_bottom(heap, wanted)? {
        Ok(bottom) => match Ends::new(heap, making, a, b, pile::over(bottom, markers.0))? {
            Ok(ends) => {
                line.desk.ends = Some(ends);
                Ok(0)
            }
            Err(refusal) => Ok(refusal.number()),
        },
        Err(refusal) => Ok(refusal.number()),
    }
}

/// `N N spis N N ike HEX HEX`, behind `ids`.
fn read_making(words: &mut Words<'_>) -> Result<Making, Stop> {
    let id_a = words.number("A's first Message ID")?;
    let id_b = words.number("B's first Message ID")?;
    words.keyword("spis")?;
    let spi_a = words.number("A's first own SPI")?;
    let spi_b = words.number("B's first own SPI")?;
    words.keyword("ike")?;
    let initiator = words.ike_spi("the IKE SPI of A")?;
    let responder = words.ike_spi("the IKE SPI of B")?;
    Ok(Making {
        initiator,
        responder,
        a: First {
            id: id_a,
            spi: spi_a,
        },
        b: First {
            id: id_b,
            spi: spi_b,
        },
    })
}

impl Ends {
    /// Two ends over a channel, between which nothing has passed.
    fn new(
        heap: Global,
        making: Making,
        a: AnyBook,
        b: AnyBook,
        channel: Pile,
    ) -> Result<Result<Ends, MakingRefusal>, AllocError> {
        let ladder = Ladder::new(heap)?;
        match Pair::new(making, a, b, Tap::over(channel)) {
            Ok(pair) => Ok(Ok(Ends { pair, ladder })),
            Err(unmade) => Ok(Err(unmade.refusal)),
        }
    }

    /// Makes a call of an end, and draws what came and what was sent. All calls so far together keep the law of two ends.
    pub(crate) fn call(&mut self, step: Move<&[u8]>) -> Result<Answer, AllocError>
        ensures step { IfOk result (λ answer. Step pile_behaves (world self.old.pair) (plain_move step.entry) answer (world self.new.pair)) }
        ensures goes_on { IfOk result (λ answer. GoesOn pile_behaves (world self.old.pair) (plain_move step.entry ∷ []) (answer ∷ []) (world self.new.pair)) }
    {
        let there = step.side.other();
        let before = self.waiting(there);
        let answer = self.pair.call(step);
        let more = self.waiting(there).saturating_sub(before);
        draw(
            &mut self.ladder,
            self.pair.channel(),
            step.side,
            answer,
            more,
        )?;
        Ok(answer)
    }

    /// How many datagrams wait at an end.
    fn waiting(&self, at: Side) -> usize {
        self.pair.channel().below().waiting(at)
    }
}

/// Draws what came to an end and what it sent, by the answer of the call, and how many more datagrams wait across.
fn draw(
    ladder: &mut Ladder,
    tap: &Tap<Pile>,
    at: Side,
    answer: Answer,
    more: usize,
) -> Result<(), AllocError> {
    if let (Some(refused), Some(octets)) = (heard(answer), tap.came()) {
        ladder.draw(at, Event::Comes(refused), octets)?;
    }
    if let (true, Some((octets, sent))) = (sends(answer), tap.sent()) {
        ladder.draw(at, Event::Leaves(Fate::of(sent, more)), octets)?;
    }
    Ok(())
}

/// Whether a call had the channel receive and, if it did, the number by which it refused what came.
fn heard(answer: Answer) -> Option<Option<u16>> {
    match answer {
        Answer::Heard(Ok(_)) => Some(None),
        Answer::Heard(Err(DeliverRefusal::NonceLength)) => None,
        Answer::Heard(Err(refusal)) => Some(Some(refusal.number())),
        _ => None,
    }
}

/// Whether a call may have sent something.
fn sends(answer: Answer) -> bool {
    match answer {
        Answer::Asked(asked) => asked.is_ok(),
        Answer::Resent(resent) => resent.is_ok(),
        Answer::Heard(heard) => heard.is_ok(),
    }
}
