//! A channel that holds datagrams itself, and a rule that says where each is put.
ghost use Rattle.std.specs.Prelude.{◌≡◌, ◌<◌, ◌≤◌, [], length, None, IfOk};
ghost use Rattle.std.specs.Result.{result_map_both};
ghost use Rattle.channel.specs.Meaning.{Within};
ghost use Rattle.channel.specs.Effects.{SentAs, ReceivedAs, came_in};
ghost use Rattle.bottoms.specs.Stores.{list_at, received, fresh, store_of};
ghost use Rattle.bottoms.specs.Bottoms.{means, behaves, held, sent_over, given_from};
ghost use Rattle.bottoms.specs.Holding.{holding_sound};

use crate::lanes::Lanes;
use crate::refusal::MakeRefusal;
use crate::rule::Rule;
use channel::channel::Channel;
use channel::sent::Sent;
use nonce::side::Side;

/// At most 32 datagrams are there for each end. What becomes of what is taken, the rule says.
#[derive(Drop)]
pub struct Bottom<R> {
    pub(crate) lanes: Lanes,
    pub(crate) rule: R,
}

impl<R: Rule + Default> Bottom<R> {
    /// A bottom in which nothing waits, for datagrams of at most `longest` octets.
    pub fn new(longest: usize) -> Result<Bottom<R>, MakeRefusal>
        ensures store { result_map_both (λ b. store_of b.lanes) (λ e. e) result ≡ fresh longest }
        ensures rule { IfOk result (λ b. R.Default.is_default b.rule) }
    {
        let lanes = Lanes::new(longest)?;
        Ok(Bottom {
            lanes,
            rule: R::default(),
        })
    }
}

impl<R> Bottom<R> {
    /// How many datagrams wait at an end.
    pub fn waiting(&self, at: Side) -> usize
        ensures { result ≡ length (list_at (store_of self.now.lanes) at) }
    {
        self.lanes.waiting(at)
    }
}

impl<R: Rule> Channel for Bottom<R> {
    ghost behaviour = { behaves R.Rule.depth R.Rule.fate R.Rule.rest };

    ghost sound = { λ b. holding_sound R.Rule.depth b.lanes };

    fn longest(&self) -> usize {
        self.lanes.longest()
    }

    fn send(&mut self, to: Side, datagram: &[u8]) -> Sent
        ensures effect { SentAs (means R.Rule.depth self.old) (means R.Rule.depth self.new) to datagram.now result }
        ensures unfit { (Within (means R.Rule.depth self.old) datagram.now → ⊥) → (result ≡ Sent.NotTaken) × (self.new ≡ self.old) }
        ensures exactly { (result, held self.new) ≡ sent_over R.Rule.fate R.Rule.rest (held self.old) to datagram.now }
    {
        if !self.lanes.admits(to, datagram) {
            return Sent::NotTaken;
        }
        let fate = self.rule.next();
        self.lanes.add(fate, to, datagram);
        Sent::Taken
    }

    fn receive(&mut self, at: Side, buffer: &mut [u8]) -> Option<usize>
        ensures effect { ReceivedAs (means R.Rule.depth self.old) (means R.Rule.depth self.new) at buffer.old buffer.new result }
        ensures short { length buffer.old < (means R.Rule.depth self.old).longest → (result ≡ None) × (self.new ≡ self.old) }
        ensures idle { 0 < (means R.Rule.depth self.old).depth → (means R.Rule.depth self.old).waiting at ≡ [] → (result ≡ None) × (self.new ≡ self.old) }
        ensures exactly { (means R.Rule.depth self.old).longest ≤ length buffer.old → (came_in buffer.new result, held self.new) ≡ given_from (held self.old) at }
        ensures buffer { (result, buffer.new, store_of self.new.lanes) ≡ received (store_of self.old.lanes) at buffer.old }
        ensures rule { self.new.rule ≡ self.old.rule }
    {
        self.lanes.receive(at, buffer)
    }
}
