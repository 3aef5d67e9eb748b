//! The kinds of requests.

/// What the outstanding request of an end asks for.
#[derive(Clone, Copy, PartialEq, Eq, Debug)]
pub enum Kind {
    Create,
    Rekey,
    Delete,
    Check,
}
