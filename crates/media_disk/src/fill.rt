//! What pending ranges hold after a crash.

/// What the pending ranges of a disk in memory hold once it has stopped. Where no write is done, a range that
/// `set_size` added holds zeros, but for `Byte`.
#[derive(Clone, Copy, Debug, PartialEq, Eq)]
pub enum Fill {
    /// What they held at the last sync that succeeded.
    Old,
    /// What was written.
    New,
    /// Of each write, one after another, the first half is done, rounded down, and the rest is not.
    Torn,
    /// This byte.
    Byte(u8),
}
