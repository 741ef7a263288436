//! The limits of the engine.

/// The most transactions that are live.
pub(crate) const MOST_TRANSACTIONS: u64 = 1_024;

/// The most cursors that are open.
pub(crate) const MOST_CURSORS: u64 = 1_024;

/// The greatest number of an event.
pub(crate) const GREATEST_NUMBER: u64 = 1 << 62;
