//! Which command a line is.
use crate::desk::Desk;
use crate::help::help;
use crate::words::Words;
use crate::wrong::{Stop, Wrong};
use crate::{books, channels, ends, messages, moves, report};
use nonce::side::Side;
use std::alloc::Global;

/// A line that is being answered: the desk that it works on, and its words.
#[derive(Drop)]
pub(crate) struct Line<'a> {
    pub(crate) desk: &'a mut Desk,
    pub(crate) words: Words<'a>,
}

/// The answer to a line, or nothing where it has no command.
pub(crate) fn answer(desk: &mut Desk, heap: Global, text: &str) -> Result<Option<String>, Stop> {
    let mut words = Words::new(heap, text);
    let Some(command) = words.next() else {
        return Ok(None);
    };
    let mut line = Line { desk, words };
    perform(&mut line, command).map(Some)
}

/// The answer to a command with the words behind it. A match, and no table: some commands read words alone, others have the
/// desk too, so that a table of functions would need one more function for each.
fn perform(line: &mut Line<'_>, command: &str) -> Result<String, Stop> {
    match command {
        "decode" => messages::decode(&mut line.words),
        "encode" => messages::encode(&mut line.words),
        "lower" => messages::lower(&mut line.words),
        "loser" => messages::loser(&mut line.words),
        "book" => books::start(line),
        "put" => books::put(line),
        "read" => books::read(line),
        "write" => books::write(line),
        "drop" => books::remove(line),
        "find" => books::find(line),
        "next" => books::next(line),
        "rows" => books::rows(line),
        "audit" => books::audit(line),
        "channel" => channels::make(line),
        "mark" => channels::mark(line),
        "unmark" => channels::unmark(line),
        "send" => channels::send(line),
        "receive" => channels::receive(line),
        "make" => ends::make(line),
        "A" => moves::call(line, Side::A),
        "B" => moves::call(line, Side::B),
        "round" => moves::round(line),
        "books" => report::books(line),
        "ends" => report::ends(line),
        "ladder" => report::ladder(line),
        "help" => help(&mut line.words),
        _ => Err(Wrong::Command(command.to_string(line.words.heap)?).into()),
    }
}
