//! A row: what one end files of a Child SA.
ghost use Rattle.std.specs.Prelude.{◌≡◌, true};
ghost use Rattle.numbered.specs.Apart.{apart_by};
ghost use Rattle.nonce.specs.Nonces.{as_nonce, nonce_long};
ghost use Rattle.book.specs.Rows.{state_number, state_of, state_told, is_opening, kept, kept_octets, nr_octets, swapped, spis, exchanged, mirrors};
ghost use Rattle.book.specs.Shelves.{shows, beyond};

use nonce::Nonce;
use numbered::Numbered;

mod began;

/// The state of a Child SA at one end.
#[derive(Clone, Copy, PartialEq, Eq, Debug, Default)]
pub enum RowState {
    /// This end asked for it, and has no answer yet.
    #[default]
    Opening = 1,
    /// It was made here for the peer, which has not shown yet that it knows of it.
    Fresh = 2,
    Standing = 3,
    /// The peer's rekey of it was answered with a new SA.
    Superseded = 4,
    /// This end asked for its end.
    Closing = 5,
}

/// Who began the exchange that made a Child SA.
#[derive(Clone, Copy, PartialEq, Eq, Debug, Default)]
pub enum Beginner {
    #[default]
    ThisEnd = 0,
    Peer = 1,
}

/// A nonce in a row: the first `len` of the octets. A length above 32 counts as 32.
// An array and a length, since a row is plain data of a fixed size in which any octets may stand.
#[derive(Clone, Copy, Default)]
pub struct KeptNonce {
    pub octets: [u8; 32],
    pub len: usize,
}

/// The SPIs of a Child SA: this end's and the peer's; both 0 where there is none.
#[derive(Clone, Copy, PartialEq, Eq, Debug, Default)]
pub struct Spis {
    pub own: u32,
    pub peer: u32,
}

/// A row of a book. A row is filed by its own SPI.
// The two SPIs are fields of their own and no `Spis`: a row is filed and looked for by `own` alone, all over the books.
// That 0 stands for no SPI, and the state for an empty nonce, is how rows are filed: plain numbers, a rule of the project.
#[derive(Clone, Copy, Default)]
pub struct Row {
    pub own: u32,
    /// The peer's SPI; 0 where the row is Opening.
    pub peer: u32,
    pub state: RowState,
    pub began: Beginner,
    /// The Child SA that this one was made to replace.
    pub parent: Spis,
    /// The initiator's nonce.
    pub ni: KeptNonce,
    /// The responder's nonce. That of an Opening row counts as empty.
    pub nr: KeptNonce,
}

impl Numbered for RowState {
    ghost number_of = { state_number };

    fn number(self) -> u16 {
        self as u16
    }

    ghost apart = { apart_by state_number state_of state_told };
}

impl RowState {
    /// Whether the SA is still asked for.
    pub(crate) fn is_opening(self) -> bool
        ensures { result ≡ is_opening self }
    {
        self == RowState::Opening
    }
}

impl From<&Nonce> for KeptNonce {
    // that they have the length of a nonce is said too: it shows only where a nonce is looked at
    ghost from_gives = { λ n k. (k ≡ kept n.now) × (nonce_long (kept_octets k) ≡ true) };

    /// The octets of a nonce.
    // padded as in `Nonce::new`, whose array stays its own
    fn from(nonce: &Nonce) -> KeptNonce {
        let from = nonce.as_slice();
        let len = from.len();
        let mut octets = [0; 32];
        octets[0..len].copy_from_slice(from);
        KeptNonce { octets, len }
    }
}

impl KeptNonce {
    /// The nonce, or nothing where the octets are not 16 to 32.
    // an Option and no TryFrom, as `Nonce::new`: what a wrong length means is the caller's to say
    pub fn nonce(&self) -> Option<Nonce>
        ensures { result ≡ as_nonce (kept_octets self.now) }
    {
        Nonce::new(self.as_slice())
    }

    /// The octets.
    pub(crate) fn as_slice(&self) -> &[u8]
        ensures { result.now ≡ kept_octets self.now }
    {
        let len = self.len.min(32);
        &self.octets[0..len]
    }
}

impl Spis {
    /// The same pair as the peer has it.
    fn swapped(self) -> Spis
        ensures { result ≡ swapped self }
    {
        Spis {
            own: self.peer,
            peer: self.own,
        }
    }
}

impl Row {
    /// The SPIs of the Child SA.
    fn spis(&self) -> Spis
        ensures { result ≡ spis self.now }
    {
        Spis {
            own: self.own,
            peer: self.peer,
        }
    }

    /// Whether the row has this peer SPI, and is not Opening.
    pub fn has_peer(&self, peer: u32) -> bool
        ensures { result ≡ shows peer self.now }
    {
        self.peer == peer && !self.state.is_opening()
    }

    /// Whether the row's own SPI is above this one.
    pub fn is_above(&self, own: u32) -> bool
        ensures { result ≡ beyond own self.now }
    {
        own < self.own
    }

    /// The octets of the responder's nonce: none while the row is Opening.
    fn nr_octets(&self) -> &[u8]
        ensures { result.now ≡ nr_octets self.now }
    {
        if self.state.is_opening() {
            return &[];
        }
        self.nr.as_slice()
    }

    /// Whether the SPIs of two rows are exchanged, and those of their parents.
    fn exchanges(&self, other: &Row) -> bool
        ensures { result ≡ exchanged self.now other.now }
    {
        self.spis() == other.spis().swapped() && self.parent == other.parent.swapped()
    }

    /// Whether two rows are of one Child SA, each as its end sees it.
    #[tactic(auto, unfolding(crate::specs::Rows::mirrors))]
    pub fn mirrors(&self, other: &Row) -> bool
        ensures value { result ≡ mirrors self.now other.now }
        ensures both_ways { result ≡ mirrors other.now self.now }
    {
        self.exchanges(other)
            && self.began != other.began
            && self.ni.as_slice() == other.ni.as_slice()
            && self.nr_octets() == other.nr_octets()
    }
}
