//! What two ends are made with.

/// Where the numbers of an end begin.
#[derive(Clone, Copy)]
pub struct First {
    /// Its first Message ID.
    pub id: u32,
    /// Its first SPI of a Child SA.
    pub spi: u32,
}

/// What the two ends of an IKE SA are made with.
// `a` and `b` by name and no `Both`, as the IKE SPIs: where an end is made, its own and its peer's are taken at once
#[derive(Clone, Copy)]
pub struct Making {
    /// The IKE SPI of A.
    pub initiator: u64,
    /// The IKE SPI of B.
    pub responder: u64,
    pub a: First,
    pub b: First,
}
