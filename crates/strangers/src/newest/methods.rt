//! How the channel that keeps the newest is a channel.
ghost use Rattle.std.specs.Prelude.{◌≡◌, ◌≤◌, length, IfSome};
ghost use Rattle.std.specs.Option.{option_map, option_copied};
ghost use Rattle.law.specs.Runs.{Clean};
ghost use Rattle.strangers.specs.Newest.{state_of, made, newest_at, behaves, newest_sound};

use crate::newest::Newest;
use arrayvec::ArrayVec;
use channel::channel::Channel;
use channel::sent::Sent;
use nonce::both::Both;
use nonce::side::Side;

/// The octets in a place of their own.
fn copy_of(octets: &[u8]) -> ArrayVec<u8, 256>
    requires { length octets.now ≤ 256 }
    ensures { result.items ≡ octets.now }
{
    let mut copy = ArrayVec::new();
    let _fits = copy.try_extend_from_slice(octets);
    copy
}

impl Newest {
    /// A channel to which nothing was sent, for datagrams of at most `longest` octets; none, where that is above 256.
    pub fn new(longest: usize) -> Option<Newest>
        ensures value { option_map state_of result ≡ made longest }
        ensures clean { IfSome result (Clean behaves) }
    {
        if longest > 256 {
            return None;
        }
        Some(Newest {
            longest,
            kept: Both::default(),
        })
    }

    /// The newest datagram for an end.
    fn newest(&self, at: Side) -> Option<&[u8]>
        ensures value { option_copied result ≡ newest_at self.now.kept at }
        ensures sized { IfSome result (λ d. length d.now ≤ self.now.longest) }
    {
        let newest = self.kept.at(at).as_ref()?;
        Some(newest.as_slice())
    }
}

impl Channel for Newest {
    ghost behaviour = { behaves };

    ghost sound = { newest_sound };

    fn longest(&self) -> usize {
        self.longest
    }

    #[tactic(auto, using(crate::specs::Newest::kept_more))]
    fn send(&mut self, to: Side, datagram: &[u8]) -> Sent {
        if !(1..=self.longest).contains(&datagram.len()) {
            return Sent::NotTaken;
        }
        *self.kept.at_mut(to) = Some(copy_of(datagram));
        Sent::Taken
    }

    fn receive(&mut self, at: Side, buffer: &mut [u8]) -> Option<usize> {
        if buffer.len() < self.longest {
            return None;
        }
        let newest = self.newest(at)?;
        buffer[..newest.len()].copy_from_slice(newest);
        Some(newest.len())
    }
}
