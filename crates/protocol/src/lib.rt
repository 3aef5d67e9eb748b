//! Two ends with a book and an outstanding request each, as far as the law of their books needs them: no channel, no octets.
#![tactic(auto)]

ghost use Rattle.protocol.specs.Law.{EndsAgree};

/// What two ends that started empty hold: at every moment, and whenever both are quiet.
pub fn ends_agree()
    ensures { EndsAgree }
{}
