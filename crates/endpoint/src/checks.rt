//! Why an ask is turned down, in the order of the checks.
ghost use Rattle.std.specs.Prelude.{◌≡◌, ◌+◌, ◌<◌, ◌≤◌, ◌^◌, true, not, IfOk};
ghost use Rattle.nonce.specs.Nonces.{nonce_long};
ghost use Rattle.book.specs.Rows.{kept_octets};
ghost use Rattle.calls.specs.declared.refusals.AskRefusal.TheVariants as refusal;
ghost use Rattle.law.specs.Asks.{Asked, Doing, where_holds, by_state, creating, create_asked, rekeying, rekey_asked, closing, deleting, delete_asked, checking, check_asked, has_room};
ghost use Rattle.law.specs.Ends.{is_quiet, is_spent};
ghost use Rattle.endpoint.specs.Begun.{passing};

use crate::Endpoint;
use book::Book;
use book::row::{Row, RowState};
use calls::refusals::AskRefusal;
use nonce::Nonce;

/// How many Message IDs there are, and how many SPIs.
const NUMBERS: u64 = 1 << 32;

/// The row, where it may be rekeyed or deleted.
fn unbarred(row: Row) -> Result<Row, AskRefusal>
    ensures value { (d : Row → Asked) → passing result d ≡ by_state row.state (d row) }
    ensures same { IfOk result (λ r. r ≡ row) }
{
    match row.state {
        RowState::Fresh => Err(AskRefusal::RowFresh),
        RowState::Superseded => Err(AskRefusal::RowSuperseded),
        RowState::Opening | RowState::Standing | RowState::Closing => Ok(row),
    }
}

impl<B: Book> Endpoint<B> {
    /// Whether no row can be added.
    pub(crate) fn is_full(&self) -> bool
        ensures { not result ≡ has_room self.now.shelf }
    {
        self.book.len() >= self.book.capacity()
    }

    /// Whether own SPIs are spent.
    pub(crate) fn has_no_spi(&self) -> bool
        ensures { result ≡ is_spent self.now.spi }
    {
        self.spi >= NUMBERS
    }

    /// Whether the end is quiet, and this Message ID is left.
    fn idle(&self, last: u64) -> Result<(), AskRefusal>
        ensures value { (d : Asked) → passing result (λ _. d) ≡ where_holds (is_quiet self.now.outstanding) refusal.Busy (where_holds (not (is_spent last)) refusal.IdsSpent d) }
        ensures left { IfOk result (λ _. last < 2 ^ 32) }
    {
        if self.outstanding.is_some() {
            return Err(AskRefusal::Busy);
        }
        if last >= NUMBERS {
            return Err(AskRefusal::IdsSpent);
        }
        Ok(())
    }

    /// The nonce, where a new SA may be asked for.
    #[tactic(auto, using(crate::proofs::Checking::create_busy), unfolding(law::specs::Asks::create_asked))]
    pub(crate) fn may_create(&self, nonce: &[u8]) -> Result<Nonce, AskRefusal>
        ensures value { passing result (λ n. creating self.now n) ≡ create_asked self.now nonce.now }
        ensures left { IfOk result (λ _. (self.now.next < 2 ^ 32) × (self.now.spi < 2 ^ 32)) }
    {
        let nonce = Nonce::new(nonce).ok_or(AskRefusal::NonceLength)?;
        self.idle(self.next)?;
        if self.has_no_spi() {
            return Err(AskRefusal::SpisSpent);
        }
        if self.is_full() {
            return Err(AskRefusal::BookFull);
        }
        Ok(nonce)
    }

    /// The nonce and the row, where the SA of an own SPI may be rekeyed. A second Message ID has to be left, for a Delete.
    #[tactic(auto, unfolding(law::specs::Asks::rekey_asked))]
    pub(crate) fn may_rekey(&self, own: u32, nonce: &[u8]) -> Result<(Nonce, Row), AskRefusal>
        ensures value { passing result (λ p. rekeying self.now p.0 p.1) ≡ rekey_asked self.now own nonce.now }
        ensures left { IfOk result (λ _. (self.now.next + 1 < 2 ^ 32) × (self.now.spi < 2 ^ 32)) }
    {
        let nonce = Nonce::new(nonce).ok_or(AskRefusal::NonceLength)?;
        self.idle(self.next + 1)?;
        if self.has_no_spi() {
            return Err(AskRefusal::SpisSpent);
        }
        let row = unbarred(self.row(own).ok_or(AskRefusal::NotInBook)?)?;
        if self.is_full() {
            return Err(AskRefusal::BookFull);
        }
        Ok((nonce, row))
    }

    /// The row, where the SA of an own SPI may be deleted.
    #[tactic(auto, unfolding(law::specs::Asks::delete_asked))]
    pub(crate) fn may_delete(&self, own: u32) -> Result<Row, AskRefusal>
        ensures value { passing result (λ r. deleting self.now r) ≡ delete_asked self.now own }
        ensures left { IfOk result (λ r. (self.now.next < 2 ^ 32) × (nonce_long (kept_octets r.ni) ≡ true)) }
    {
        self.idle(self.next)?;
        unbarred(self.row(own).ok_or(AskRefusal::NotInBook)?)
    }

    /// Whether the peer may be asked for an answer.
    #[tactic(auto, unfolding(law::specs::Asks::check_asked))]
    pub(crate) fn may_check(&self) -> Result<(), AskRefusal>
        ensures value { passing result (λ _. checking self.now) ≡ check_asked self.now }
        ensures left { IfOk result (λ _. self.now.next < 2 ^ 32) }
    {
        self.idle(self.next)
    }
}
