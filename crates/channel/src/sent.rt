//! What a send answers.
ghost use Rattle.numbered.specs.Apart.{apart_by};
ghost use Rattle.channel.specs.Numbers.{sent_number, sent_of, sent_told};

use numbered::Numbered;

/// Whether a channel took a datagram.
// no bool, since it is an answer that has a number
#[derive(Clone, Copy, PartialEq, Eq, Debug)]
pub enum Sent {
    Taken = 0,
    NotTaken = 1,
}

impl Numbered for Sent {
    ghost number_of = { sent_number };

    fn number(self) -> u16 {
        self as u16
    }

    ghost apart = { apart_by sent_number sent_of sent_told };
}
