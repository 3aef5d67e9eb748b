//! What is wrong with a line.
use nonce::side::Side;
use std::alloc::AllocError;
use thiserror::Error;

/// What is wrong with a line of the script.
#[derive(Debug, Drop, Error)]
pub(crate) enum Wrong {
    /// No command has this name.
    #[error("unknown command `{0}`; `help` lists the commands")]
    Command(String),
    /// The line ends where this was expected.
    #[error("a word is missing: expected {0}")]
    Missing(String),
    /// Another word stands where this was expected.
    #[error("expected {expected}, found `{word}`")]
    Unexpected { word: String, expected: String },
    /// The line goes on with this word where it was to end.
    #[error("too many words: the line goes on with `{0}`")]
    TooMany(String),
    #[error("not an even number of hexadecimal digits: `{0}`")]
    NotHex(String),
    /// A word that is not decimal digits.
    #[error("not a number: `{0}`")]
    NotNumber(String),
    #[error("too large for 32 bits: `{0}`")]
    TooLarge(String),
    #[error("a nonce has 16 to 32 octets, this has {0}")]
    NonceLength(usize),
    #[error("an IKE SPI has 8 octets, this has {0}")]
    IkeSpiLength(usize),
    #[error("the message has more than 160 octets")]
    NoRoom,
    /// The book of this name was not started.
    #[error("there is no book {0}; start one with `book ordered {0}` or `book table {0}`")]
    NoBook(Side),
    #[error("there is no channel; make one with `channel queue 160`, for example")]
    NoChannel,
    #[error("three markers stand over the channel: there is no place for one more")]
    NoMoreMarkers,
    #[error("no marker stands over the channel")]
    NoMarker,
    #[error("there are no ends; `make` makes them, and `help` tells how")]
    NoEnds,
    #[error("a round is made 1 to 100 times, this {0} times")]
    Times(u32),
    #[error("a buffer has 0 to 256 octets here, this has {0}")]
    BufferLength(u32),
}

/// Why a line has no answer.
#[derive(Debug, Drop, Error)]
pub(crate) enum Stop {
    /// Something is wrong with the line: that is told in the place of an answer.
    #[error(transparent)]
    Wrong(#[from] Wrong),
    /// There is no memory left: that ends the program.
    #[error(transparent)]
    Memory(#[from(alloc)] AllocError),
}
