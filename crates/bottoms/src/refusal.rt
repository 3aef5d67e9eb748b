//! Why a channel is not made.
ghost use Rattle.std.specs.Prelude.{◌≡◌, cond, Ok, Err};
ghost use Rattle.numbered.specs.Apart.{apart_by};
ghost use Rattle.bottoms.specs.Refusals.{make_number, make_of, make_told};
ghost use Rattle.bottoms.specs.Stores.{in_range};

use numbered::Numbered;

/// Why no channel is made; as a number, that of the rule.
#[derive(Clone, Copy, PartialEq, Eq, Debug)]
pub enum MakeRefusal {
    /// The longest datagram has not 32 to 256 octets.
    Longest = 11,
}

impl Numbered for MakeRefusal {
    ghost number_of = { make_number };

    fn number(self) -> u16 {
        self as u16
    }

    ghost apart = { apart_by make_number make_of make_told };
}

/// Whether a channel is made for datagrams of at most `longest` octets: for 32 to 256 it is, and anything else is refused.
pub fn check_longest(longest: usize) -> Result<(), MakeRefusal>
    ensures { result ≡ cond (in_range longest) (Ok tt) (Err MakeRefusal.Longest) }
{
    if (32..=256).contains(&longest) {
        Ok(())
    } else {
        Err(MakeRefusal::Longest)
    }
}
