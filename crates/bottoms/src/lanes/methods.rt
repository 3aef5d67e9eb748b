//! How datagrams come into the lanes and leave them.
ghost use Rattle.std.specs.Prelude.{◌≡◌, true, length, IfNone};
ghost use Rattle.std.specs.Result.{result_map_both};
ghost use Rattle.bottoms.specs.Stores.{list_at, admits, received, fresh, store_of};
ghost use Rattle.bottoms.specs.Fates.{fated};

use crate::datagram::datagram;
use crate::lanes::Lanes;
use crate::refusal::{MakeRefusal, check_longest};
use crate::rule::Fate;
use nonce::both::Both;
use nonce::side::Side;

impl Lanes {
    /// Lanes with nothing in them.
    pub(crate) fn new(longest: usize) -> Result<Lanes, MakeRefusal>
        ensures { result_map_both store_of (λ e. e) result ≡ fresh longest }
    {
        check_longest(longest)?;
        Ok(Lanes {
            longest,
            lists: Both::default(),
        })
    }

    /// The most octets of a datagram.
    pub(crate) fn longest(&self) -> usize
        ensures { result ≡ (store_of self.now).longest }
    {
        self.longest
    }

    /// How many datagrams wait at an end.
    pub(crate) fn waiting(&self, at: Side) -> usize
        ensures { result ≡ length (list_at (store_of self.now) at) }
    {
        self.lists.at(at).len()
    }

    /// Whether these octets have the length of a datagram, and there is a place for them.
    pub(crate) fn admits(&self, to: Side, octets: &[u8]) -> bool
        ensures { result ≡ admits (store_of self.now) to octets.now }
    {
        (1..=self.longest).contains(&octets.len()) && !self.lists.at(to).is_full()
    }

    /// Adds a datagram as its fate has it.
    pub(crate) fn add(&mut self, fate: Fate, to: Side, octets: &[u8])
        requires { admits (store_of self.old) to octets.now ≡ true }
        ensures { store_of self.new ≡ fated fate (store_of self.old) to octets.now }
    {
        let lane = self.lists.at_mut(to);
        // a match and no closure: a fate is a letter that came with the script
        match fate {
            Fate::Pass => lane.push(datagram(octets)),
            Fate::Lose => {}
            Fate::Double => {
                lane.push(datagram(octets));
                // short of space, it is added once
                let _once = lane.try_push(datagram(octets));
            }
            Fate::Jump => lane.insert(0, datagram(octets)),
        }
    }

    /// Takes the first datagram for an end, to the front of the buffer; none, where nothing is there or the buffer has not
    /// room for any.
    pub(crate) fn receive(&mut self, at: Side, buffer: &mut [u8]) -> Option<usize>
        ensures exactly { (result, buffer.new, store_of self.new) ≡ received (store_of self.old) at buffer.old }
        ensures kept { IfNone result (self.new ≡ self.old) }
    {
        if buffer.len() < self.longest {
            return None;
        }
        let lane = self.lists.at_mut(at);
        // read where it stands, since to take it out would copy its whole place
        let first = lane.first()?;
        let len = first.len();
        buffer[..len].copy_from_slice(first);
        lane.remove(0);
        Some(len)
    }
}
