//! What an end does with what it has heard.
use calls::refusals::DeliverRefusal;

/// What an end sends.
#[derive(Clone, Copy)]
pub(crate) enum Says {
    Nothing,
    /// The stored reply.
    Reply,
    /// The outstanding request.
    Request,
}

/// What an end does with what came.
#[derive(Clone, Copy)]
pub(crate) enum Reaction {
    Refused(DeliverRefusal),
    /// A request came once more: the stored reply goes out again.
    Again,
    Done(Says),
}
