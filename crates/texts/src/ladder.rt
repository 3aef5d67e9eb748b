//! The picture of the messages between two ends: time goes down, A is at the left and B at the right.
ghost use Rattle.std.specs.Prelude.{◌≡◌, ℕ, List, ◌∷◌, ◌++◌, length, replicate, IfOk, IfErr, Some, string_bytes};
ghost use Rattle.wire.specs.Decoding.{decoded};
ghost use Rattle.texts.specs.Ladders.{names_text, fate_of, request_brief, response_brief, body_brief, message_brief, label_text, behind_text, head_text, shaft_text, line_text};

use channel::sent::Sent;
use nonce::side::Side;
use std::alloc::{AllocError, Global};
use std::fmt;
use std::marker::Model;
use wire::message::{Body, Failure, Message, Request, Response};

/// What becomes of a message that is sent.
#[derive(Clone, Copy)]
pub enum Fate {
    Once,
    Twice,
    Lost,
    NotTaken,
}

impl Fate {
    /// What becomes of a message, by the answer of its send and how many more datagrams wait then where it goes.
    pub fn of(sent: Sent, more: usize) -> Fate
        ensures { result ≡ fate_of sent more }
    {
        match (sent, more) {
            (Sent::NotTaken, _) => Fate::NotTaken,
            (Sent::Taken, 0) => Fate::Lost,
            (Sent::Taken, 1) => Fate::Once,
            (Sent::Taken, _) => Fate::Twice,
        }
    }
}

/// What happens to a message at an end.
#[derive(Clone, Copy)]
pub enum Event {
    /// It is sent.
    Leaves(Fate),
    /// It comes, and perhaps is refused with this number.
    Comes(Option<u16>),
}

/// The lines so far.
#[derive(Drop)]
pub struct Ladder {
    heap: Global,
    lines: String,
}

/// To a contract a ladder is its lines.
impl Model for Ladder {
    ghost Value = { List ℕ };

    ghost view = { λ l. string_bytes l.lines };
}

impl Ladder {
    /// A ladder with no message: the names of the ends.
    pub fn new(heap: Global) -> Result<Ladder, AllocError>
        ensures { IfOk result (λ l. l ≡ names_text) }
    {
        let lines = NAMES.to_string(heap)?;
        Ok(Ladder { heap, lines })
    }

    /// The lines so far.
    pub fn text(&self) -> &str
        ensures { result.now ≡ self.now }
    {
        self.lines.as_str()
    }

    /// Draws a message at an end. Where there is no memory for its line, nothing is drawn.
    pub fn draw(&mut self, at: Side, event: Event, octets: &[u8]) -> Result<(), AllocError>
        ensures drawn { IfOk result (λ _. self.new ≡ self.old ++ (10 ∷ line_text at event (label_text (decoded octets.now) (length octets.now)))) }
        ensures memory { IfErr result (λ _. self.new ≡ self.old) }
    {
        let label = label_of(self.heap, octets)?;
        let line = line_of(self.heap, at, event, label.as_str())?;
        let line = format!(in self.heap; "\n{line}")?;
        self.lines.push_str(line.as_str())
    }
}

/// The names of the ends, over the places where their lines begin.
const NAMES: &str = "A                                                               B";

/// What a datagram is, in short, and a space.
fn label_of(heap: Global, octets: &[u8]) -> Result<String, AllocError>
    ensures { IfOk result (λ s. string_bytes s ≡ label_text (decoded octets.now) (length octets.now)) }
{
    match wire::decode::decode(octets) {
        Ok(message) => Brief(message).to_string(heap),
        Err(_) => {
            let len = octets.len();
            format!(in heap; "{len} octets ")
        }
    }
}

/// The line of a message at an end.
fn line_of(heap: Global, at: Side, event: Event, label: &str) -> Result<String, AllocError>
    ensures { IfOk result (λ s. string_bytes s ≡ line_text at event label.now) }
{
    let shaft = Shaft(label);
    let behind = Behind(event);
    match (at, event) {
        (Side::A, Event::Leaves(fate)) => {
            let head = head_of(fate, ">");
            format!(in heap; "o{shaft}{head} |{behind}")
        }
        (Side::B, Event::Leaves(fate)) => {
            let head = head_of(fate, "<");
            format!(in heap; "| {head}{shaft}o{behind}")
        }
        (Side::A, Event::Comes(_)) => format!(in heap; "o<{shaft} |{behind}"),
        (Side::B, Event::Comes(_)) => format!(in heap; "| {shaft}>o{behind}"),
    }
}

/// The head of a shaft: x, where the message goes no further.
fn head_of(fate: Fate, head: &'static str) -> &'static str
    ensures { result.now ≡ head_text fate head.now }
{
    match fate {
        Fate::Once | Fate::Twice => head,
        Fate::Lost | Fate::NotTaken => "x",
    }
}

/// As many places as a label and the dashes behind it fill.
const PLACES: usize = 58;

/// The shaft of a line, without its head: what is said, filled up with dashes.
#[derive(Clone, Copy)]
struct Shaft<'a>(&'a str);

impl fmt::Display for Shaft<'_> {
    ghost output = { λ s. Some (shaft_text s.0.now) };

    fn fmt<W: fmt::Write>(&self, f: &mut fmt::Formatter<W>) -> fmt::Result {
        let label = self.0;
        let dashes = Dashes(PLACES.saturating_sub(label.len()));
        write!(f, "-- {label}{dashes}")
    }
}

/// So many dashes.
#[derive(Clone, Copy)]
struct Dashes(usize);

impl fmt::Display for Dashes {
    ghost output = { λ d. Some (replicate d.0 45) };

    fn fmt<W: fmt::Write>(&self, f: &mut fmt::Formatter<W>) -> fmt::Result {
        for _i in 0..self.0 {
            write!(f, "-")?;
        }
        Ok(())
    }
}

/// What stands behind a line.
#[derive(Clone, Copy)]
struct Behind(Event);

impl fmt::Display for Behind {
    ghost output = { λ b. Some (behind_text b.0) };

    fn fmt<W: fmt::Write>(&self, f: &mut fmt::Formatter<W>) -> fmt::Result {
        match self.0 {
            Event::Leaves(Fate::Once) | Event::Comes(None) => Ok(()),
            Event::Leaves(Fate::Twice) => write!(f, " twice"),
            Event::Leaves(Fate::Lost) => write!(f, " lost"),
            Event::Leaves(Fate::NotTaken) => write!(f, " not taken"),
            Event::Comes(Some(number)) => write!(f, " refused {number}"),
        }
    }
}

/// What a message says, in short.
#[derive(Clone, Copy)]
struct Brief<T>(T);

impl fmt::Display for Brief<Message<&[u8]>> {
    ghost output = { λ b. Some (message_brief b.0) };

    fn fmt<W: fmt::Write>(&self, f: &mut fmt::Formatter<W>) -> fmt::Result {
        let id = self.0.id;
        let body = Brief(self.0.body);
        match self.0.body {
            Body::Request(_) => write!(f, "request {id} {body} "),
            Body::Response(_) => write!(f, "response {id} {body} "),
        }
    }
}

impl fmt::Display for Brief<Body<&[u8]>> {
    ghost output = { λ b. Some (body_brief b.0) };

    fn fmt<W: fmt::Write>(&self, f: &mut fmt::Formatter<W>) -> fmt::Result {
        match self.0 {
            Body::Request(request) => Brief(request).fmt(f),
            Body::Response(response) => Brief(response).fmt(f),
        }
    }
}

impl fmt::Display for Brief<Request<&[u8]>> {
    ghost output = { λ b. Some (request_brief b.0) };

    fn fmt<W: fmt::Write>(&self, f: &mut fmt::Formatter<W>) -> fmt::Result {
        match self.0 {
            Request::Create { spi, .. } => write!(f, "create {spi}"),
            Request::Rekey { old, spi, .. } => write!(f, "rekey {old} by {spi}"),
            Request::Delete { spi } => write!(f, "delete {spi}"),
            Request::Empty => write!(f, "empty"),
        }
    }
}

impl fmt::Display for Brief<Response<&[u8]>> {
    ghost output = { λ b. Some (response_brief b.0) };

    fn fmt<W: fmt::Write>(&self, f: &mut fmt::Formatter<W>) -> fmt::Result {
        match self.0 {
            Response::NewSa { spi, .. } => write!(f, "new {spi}"),
            Response::Failed(Failure::NoProposalChosen) => write!(f, "notify 14"),
            Response::Failed(Failure::NoAdditionalSas) => write!(f, "notify 35"),
            Response::Failed(Failure::TemporaryFailure) => write!(f, "notify 43"),
            Response::Failed(Failure::ChildSaNotFound { spi }) => write!(f, "notify 44 {spi}"),
            Response::Delete { spi } => write!(f, "delete {spi}"),
            Response::Empty => write!(f, "empty"),
        }
    }
}
