//! Worked lines of the definitions: the order of nonces, losers, octets and refusals.
ghost use Rattle.std.specs.Prelude.{◌≡◌, length};
ghost use Rattle.wire.specs.Lines.{lines, AllHold};

/// How many worked lines there are; the definitions give each of them.
#[tactic(auto, using(crate::proofs::Worked::all_hold))]
pub fn worked_lines() -> usize
    ensures count { result ≡ length lines }
    ensures hold { AllHold lines }
{
    7
}
