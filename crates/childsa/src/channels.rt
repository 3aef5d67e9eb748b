//! The commands on channels.
ghost use Rattle.std.specs.Prelude.{◌≤◌, IfOk, IfErr, string_bytes};
ghost use Rattle.childsa.specs.Bottoms.{BottomMade, WantsMemory};
ghost use Rattle.childsa.specs.Told.{ReceivedText};

use crate::commands::Line;
use crate::desk::Desk;
use crate::words::Words;
use crate::wrong::{Stop, Wrong};
use bottoms::queue::Queue;
use bottoms::refusal::{MakeRefusal, check_longest};
use bottoms::stack::Stack;
use bottoms::trace::Trace;
use channel::channel::Channel;
use chosen::any_bottom::AnyBottom;
use chosen::pile::{self, Pile};
use nonce::side::Side;
use std::alloc::{AllocError, Global};
use std::fmt;
use texts::digits::Hex;
use texts::told::{Refused, Told};

/// The bottom that is asked for; the fates of a trace are as they are written.
#[derive(Clone, Copy)]
pub(crate) enum Wanted<'a> {
    Queue { longest: u32 },
    Stack { longest: u32 },
    Trace { longest: u32, fates: &'a str },
}

impl fmt::Display for Wanted<'_> {
    fn fmt<W: fmt::Write>(&self, f: &mut fmt::Formatter<W>) -> fmt::Result {
        match self {
            Wanted::Queue { longest } => write!(f, "queue {longest}"),
            Wanted::Stack { longest } => write!(f, "stack {longest}"),
            Wanted::Trace { longest, fates } => write!(f, "trace {longest} {fates}"),
        }
    }
}

/// As many markers as can stand over a bottom.
const MOST_MARKERS: usize = 3;

/// How many markers are asked for over the bottom, at most three.
#[derive(Clone, Copy)]
pub(crate) struct Markers(pub(crate) usize);

impl fmt::Display for Markers {
    fn fmt<W: fmt::Write>(&self, f: &mut fmt::Formatter<W>) -> fmt::Result {
        for _ in 0..self.0 {
            write!(f, " marker")?;
        }
        Ok(())
    }
}

/// `channel BOTTOM MARKERS`: makes the channel.
pub(crate) fn make(line: &mut Line<'_>) -> Result<String, Stop> {
    let heap = line.words.heap;
    let wanted = read_wanted(&mut line.words)?;
    let markers = read_markers(&mut line.words)?;
    match new_bottom(heap, wanted)? {
        Ok(bottom) => {
            let pile = pile::over(bottom, markers.0);
            let most = pile.longest();
            line.desk.channel = Some(pile);
            Ok(format!(in heap; "channel {wanted}{markers} longest {most}")?)
        }
        Err(refusal) => Ok(Refused(refusal).to_string(heap)?),
    }
}

/// `mark`: puts one marker more over the channel. What waits there stays, unmarked as it is.
pub(crate) fn mark(line: &mut Line<'_>) -> Result<String, Stop> {
    line.words.end()?;
    let markers = channel_of(line.desk)?.markers();
    if markers >= MOST_MARKERS {
        return Err(Wrong::NoMoreMarkers.into());
    }
    let longest = line.desk.mark(markers + 1).ok_or(Wrong::NoChannel)?;
    Ok(format!(in line.words.heap; "marked, longest {longest}")?)
}

/// `unmark`: takes the highest marker off.
pub(crate) fn unmark(line: &mut Line<'_>) -> Result<String, Stop> {
    line.words.end()?;
    let markers = channel_of(line.desk)?.markers();
    let fewer = markers.checked_sub(1).ok_or(Wrong::NoMarker)?;
    let longest = line.desk.mark(fewer).ok_or(Wrong::NoChannel)?;
    Ok(format!(in line.words.heap; "unmarked, longest {longest}")?)
}

/// The channel, where there is one.
fn channel_of(desk: &Desk) -> Result<&Pile, Wrong> {
    desk.channel.as_ref().ok_or(Wrong::NoChannel)
}

/// `send END HEX`: sends a datagram to an end.
pub(crate) fn send(line: &mut Line<'_>) -> Result<String, Stop> {
    let to = line.words.side()?;
    let datagram = line.words.datagram()?;
    line.words.end()?;
    let channel = line.desk.channel.as_mut().ok_or(Wrong::NoChannel)?;
    let sent = channel.send(to, datagram.as_slice());
    Ok(Told(sent).to_string(line.words.heap)?)
}

/// `receive END` and `receive END N`: receives at an end, into a buffer of 256 or of N octets.
pub(crate) fn receive(line: &mut Line<'_>) -> Result<String, Stop> {
    let at = line.words.side()?;
    let len = read_length(&mut line.words)?;
    line.words.end()?;
    // fixed memory: a channel writes into the octets of its caller, who need not know how many it takes
    let mut room = [0u8; 256];
    let channel = line.desk.channel.as_mut().ok_or(Wrong::NoChannel)?;
    Ok(received_text(line.words.heap, channel, at, &mut room[0..len])?)
}

/// What is printed of a receive into a buffer.
fn received_text<C: Channel>(
    heap: Global,
    channel: &mut C,
    at: Side,
    buffer: &mut [u8],
) -> Result<String, AllocError>
    ensures { IfOk result (λ s. ReceivedText (C.Channel.behaviour.meaning channel.old) at (string_bytes s)) }
{
    match channel.receive(at, buffer) {
        Some(len) => Hex(&buffer[0..len]).to_string(heap),
        None => String::from_str(heap, "nothing"),
    }
}

/// A bottom in which nothing waits.
pub(crate) fn new_bottom(
    heap: Global,
    wanted: Wanted<'_>,
) -> Result<Result<AnyBottom, MakeRefusal>, AllocError>
    ensures made { IfOk result (BottomMade wanted.entry) }
    ensures memory { IfErr result (λ _. WantsMemory wanted.entry) }
{
    Ok(match wanted {
        Wanted::Queue { longest } => Queue::new(longest as usize).map(AnyBottom::Queue),
        Wanted::Stack { longest } => Stack::new(longest as usize).map(AnyBottom::Stack),
        Wanted::Trace { longest, fates } => {
            // before the letters are copied: what is refused wants no memory
            if let Err(refusal) = check_longest(longest as usize) {
                return Ok(Err(refusal));
            }
            let letters = Vec::from_slice(heap, letters_of(fates))?;
            Trace::new(longest as usize, letters).map(AnyBottom::Trace)
        }
    })
}

/// `queue N`, `stack N` or `trace N FATES`.
// a match on the word: behind each word others are read
pub(crate) fn read_wanted<'a>(words: &mut Words<'a>) -> Result<Wanted<'a>, Stop> {
    let expected = "`queue`, `stack` or `trace`";
    match words.word(expected)? {
        "queue" => Ok(Wanted::Queue {
            longest: read_longest(words)?,
        }),
        "stack" => Ok(Wanted::Stack {
            longest: read_longest(words)?,
        }),
        "trace" => Ok(Wanted::Trace {
            longest: read_longest(words)?,
            fates: words.word("the fates of what is sent, or `-` for none")?,
        }),
        word => words.unexpected(word, expected),
    }
}

/// The most octets of a datagram.
fn read_longest(words: &mut Words<'_>) -> Result<u32, Stop> {
    words.number("the most octets of a datagram")
}

/// The letters of the fates; `-` stands for none.
fn letters_of(fates: &str) -> &[u8] {
    match fates {
        "-" => &[],
        letters => letters.as_bytes(),
    }
}

/// `marker`, up to three times before the end of the line.
fn read_markers(words: &mut Words<'_>) -> Result<Markers, Stop> {
    for markers in 0..MOST_MARKERS {
        match words.next() {
            Some("marker") => {}
            Some(word) => return words.unexpected(word, "`marker` or the end of the line"),
            None => return Ok(Markers(markers)),
        }
    }
    words.end()?;
    Ok(Markers(MOST_MARKERS))
}

/// `marker`, up to three times, and then this word.
pub(crate) fn read_markers_before(words: &mut Words<'_>, end: &str) -> Result<Markers, Stop> {
    let expected = format!(in words.heap; "`marker` or `{end}`")?;
    for markers in 0..MOST_MARKERS {
        match words.word(expected.as_str())? {
            "marker" => {}
            word if word == end => return Ok(Markers(markers)),
            word => return words.unexpected(word, expected.as_str()),
        }
    }
    words.keyword(end)?;
    Ok(Markers(MOST_MARKERS))
}

/// The length of a buffer, or 256 where none is given.
fn read_length(words: &mut Words<'_>) -> Result<usize, Stop>
    ensures { IfOk result (λ n. n ≤ 256) }
{
    let Some(word) = words.next() else {
        return Ok(256);
    };
    let octets = words.number_from(word)?;
    if octets > 256 {
        return Err(Wrong::BufferLength(octets).into());
    }
    Ok(octets as usize)
}
