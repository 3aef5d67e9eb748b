//! What is told by a number: refusals and answers of every layer, and what a row files as one.
#![tactic(auto)]

ghost use Rattle.std.specs.Prelude.{◌≡◌, ℕ};

/// A kind of refusal, answer or state. Each has a number of its own.
pub trait Numbered: Copy {
    /// The number of each.
    ghost number_of: { Self → ℕ };

    /// The number.
    fn number(self) -> u16
        ensures { result ≡ number_of self };

    /// No two have the same number.
    ghost apart: { (x y : Self) → number_of x ≡ number_of y → x ≡ y };
}
