//! The numbers of answers.
ghost use Rattle.std.specs.Prelude.{Some};
ghost use Rattle.texts.specs.Told.{numbers_text};

use crate::told::Told;
use calls::answers::Answer;
use std::fmt;

/// The numbers of answers, a space before each.
impl fmt::Display for Told<&[Answer]> {
    ghost output = { λ t. Some (numbers_text t.0.now) };

    fn fmt<W: fmt::Write>(&self, f: &mut fmt::Formatter<W>) -> fmt::Result {
        for answer in self.0 {
            let number = answer.number();
            write!(f, " {number}")?;
        }
        Ok(())
    }
}
