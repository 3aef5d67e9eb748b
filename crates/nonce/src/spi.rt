//! Which SPIs are reserved.

/// The lowest SPI that is not reserved: 1 to 255 are (RFC 4303), and 0 stands for none.
pub const LOWEST_SPI: u32 = 256;
