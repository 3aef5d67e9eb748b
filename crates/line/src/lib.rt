//! Two ends and the channel between them: the law over every run of calls, for ends that refuse as they like.
#![tactic(auto)]

ghost use Rattle.std.specs.Prelude.{ℕ, ◌^◌, ◌<◌};
ghost use Rattle.line.specs.Codes.{Coded};
ghost use Rattle.line.specs.Whole.{KeepsLaw};

use channel::channel::Channel;

/// Over this channel every run of calls keeps the law at every moment, and messages can be sent over it as octets.
pub fn runs_keep_the_law<C: Channel>(_over: &C)
    ensures law { KeepsLaw C.Channel.behaviour.meaning }
    ensures codes { (i r : ℕ) → i < 2 ^ 64 → r < 2 ^ 64 → Coded i r }
{}
