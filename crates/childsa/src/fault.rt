//! What ends the program before its script does.
use std::alloc::AllocError;
use std::{fmt, io};
use thiserror::Error;

/// Why the program ends early.
#[derive(Drop, Error)]
pub(crate) enum Fault {
    #[error("out of memory")]
    Memory(#[from(alloc)] AllocError),
    #[error("at most one argument is taken, the name of a script")]
    Usage,
    #[error("the arguments cannot be read: {0}")]
    Arguments(io::Error),
    #[error("the script `{name}` cannot be opened: {error}")]
    Open { name: String, error: io::Error },
    /// A line is no UTF-8, or the file fails.
    #[error("line {line} of the script cannot be read: {error}")]
    Read { line: u64, error: io::Error },
    #[error("an answer cannot be printed: {0}")]
    Print(io::Error),
}

/// What the runtime tells of a fault that ends the program is its message.
impl fmt::Debug for Fault {
    fn fmt<W: fmt::Write>(&self, f: &mut fmt::Formatter<W>) -> fmt::Result {
        fmt::Display::fmt(self, f)
    }
}
