//! What an end does at each ask and at each message, as definitions, and the law over every run of them.
#![tactic(auto)]

ghost use Rattle.std.specs.Prelude.{[], ◌∷◌};
ghost use Rattle.law.specs.Laws.{KeepsLaw, left_open};
ghost use Rattle.law.specs.Samples.{Leads, collision, collision_numbers, mishaps, mishap_numbers};

use channel::channel::Channel;

pub mod kinds;
pub mod lines;

/// The law of the definitions: over this channel, every run of two ends from their making keeps the law at every moment. It
/// says nothing of code; that speaks of it by being held to the same definitions. It holds of the runs of the channel's own
/// behaviour, and of all that its meaning alone allows.
pub fn definitions_keep_the_law<C: Channel>(_over: &C)
    ensures by_behaviour { KeepsLaw C.Channel.behaviour }
    ensures by_meaning { KeepsLaw (left_open C.Channel.behaviour.meaning) }
{}

/// The law is not empty: there are runs that the definitions compute, a collision of two rekeys and a line that loses and
/// repeats, with these answers, after which both ends are quiet and their books agree.
#[tactic(auto, using(crate::proofs::Samples::collides, crate::proofs::Samples::mishaps_pass))]
pub fn runs_are_there()
    ensures collision { Leads collision collision_numbers (1002 ∷ []) }
    ensures mishaps { Leads mishaps mishap_numbers [] }
{}
