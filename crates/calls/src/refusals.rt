//! Why an end turns a call down, each with its number.
ghost use Rattle.numbered.specs.Apart.{apart_by};
ghost use Rattle.calls.specs.Numbers.{making_number, making_of, making_told, ask_number, ask_of, ask_told, resend_number, resend_of, resend_told, deliver_number, deliver_of, deliver_told};

use numbered::Numbered;
use wire::message::DecodeRefusal;

/// Why two ends are not made.
#[derive(Clone, Copy, PartialEq, Eq, Debug)]
pub enum MakingRefusal {
    /// A first SPI is below 256: those are reserved.
    ReservedSpi = 10,
    /// A book has rows already.
    BookNotEmpty = 13,
}

/// Why an ask is turned down, by the first check that fails.
#[derive(Clone, Copy, PartialEq, Eq, Debug)]
pub enum AskRefusal {
    /// The nonce has not 16 to 32 octets.
    NonceLength = 20,
    /// A request is outstanding.
    Busy = 21,
    /// Fewer Message IDs are left than one; for a rekey, than two.
    IdsSpent = 22,
    /// No own SPI is left.
    SpisSpent = 23,
    /// The own SPI is not in the book.
    NotInBook = 24,
    /// The row is Fresh.
    RowFresh = 25,
    /// The row is Superseded.
    RowSuperseded = 26,
    /// The book is full.
    BookFull = 27,
}

/// Why nothing is sent again.
#[derive(Clone, Copy, PartialEq, Eq, Debug)]
pub enum ResendRefusal {
    /// No request is outstanding.
    Quiet = 28,
}

/// Why a delivery changes no end.
#[derive(Clone, Copy)]
pub enum DeliverRefusal {
    /// The nonce has not 16 to 32 octets; nothing was taken from the channel.
    NonceLength,
    /// Nothing came.
    NothingCame,
    /// What came is no message.
    NoMessage(DecodeRefusal),
    /// Other IKE SPIs, or not sent by the peer.
    NotThePeer,
    /// A Message ID that does not count.
    WrongId,
}

impl Numbered for MakingRefusal {
    ghost number_of = { making_number };

    fn number(self) -> u16 {
        self as u16
    }

    ghost apart = { apart_by making_number making_of making_told };
}

impl Numbered for AskRefusal {
    ghost number_of = { ask_number };

    fn number(self) -> u16 {
        self as u16
    }

    ghost apart = { apart_by ask_number ask_of ask_told };
}

impl Numbered for ResendRefusal {
    ghost number_of = { resend_number };

    fn number(self) -> u16 {
        self as u16
    }

    ghost apart = { apart_by resend_number resend_of resend_told };
}

impl Numbered for DeliverRefusal {
    ghost number_of = { deliver_number };

    fn number(self) -> u16 {
        match self {
            DeliverRefusal::NonceLength => 30,
            DeliverRefusal::NothingCame => 31,
            DeliverRefusal::NoMessage(refusal) => refusal.number(),
            DeliverRefusal::NotThePeer => 33,
            DeliverRefusal::WrongId => 34,
        }
    }

    ghost apart = { apart_by deliver_number deliver_of deliver_told };
}
