//! One call of a disk in memory, as its record keeps it.

/// What a call did.
#[derive(Debug, Drop)]
pub enum Work {
    /// It asked for the size.
    Size,
    /// It gave the device this size.
    SetSize(u64),
    /// It read.
    Read,
    /// It wrote from a place on, over these bytes.
    Write(u64, Vec<u8>),
    /// It was to write this many bytes from a place on, and failed: it wrote nothing.
    FailedWrite(u64, u64),
    /// It synced.
    Sync,
}

/// A call, with the clock before it.
#[derive(Debug, Drop)]
pub struct Call {
    pub clock: u64,
    pub work: Work,
    /// Whether it failed.
    pub failed: bool,
}
