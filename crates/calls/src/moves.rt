//! The calls of two ends.
use nonce::side::Side;

/// What is asked of an end. `N` is how a nonce is held.
#[derive(Clone, Copy)]
pub enum Call<N> {
    /// A new SA.
    Create { nonce: N },
    /// A new SA in the place of the one of this own SPI.
    Rekey { own: u32, nonce: N },
    /// The end of the SA of this own SPI.
    Delete { own: u32 },
    /// Nothing but an answer of the peer.
    Check,
    /// The outstanding request once more.
    Resend,
    /// To take what has come, with a nonce for a reply that needs one.
    Deliver { nonce: N },
}

/// A call of one of the two ends.
#[derive(Clone, Copy)]
pub struct Move<N> {
    pub side: Side,
    pub call: Call<N>,
}
