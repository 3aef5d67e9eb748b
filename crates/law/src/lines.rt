//! Worked lines of the definitions: those of the messages, and the last Message ID.
ghost use Rattle.std.specs.Prelude.{◌≡◌, length};
ghost use Rattle.law.specs.Lines.{lines, AllHold};

use wire::lines;

/// How many worked lines there are; the definitions give each of them.
pub fn worked_lines() -> usize
    ensures count { result ≡ length lines }
    ensures hold { AllHold lines }
{
    lines::worked_lines() + 1
}
