//! The gates of a region.

/// An open gate. Every other byte is a closed one.
pub const OPEN_GATE: u8 = 79;

/// An open gate, as it is written.
pub(crate) const OPEN: &[u8] = &[OPEN_GATE];

/// A closed gate, as it is written.
pub(crate) const CLOSED: &[u8] = &[0];
