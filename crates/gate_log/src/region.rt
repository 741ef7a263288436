//! Where a region lies, and where its batches end.

/// The least size of a region in bytes: a head gate, a sequence and a first gate.
pub const LEAST_SIZE: u64 = 10;

/// The place of the first batch's gate, which is the tail of a region without batches.
pub const FIRST_GATE: u64 = 9;

/// What a batch takes of a region beside its payload, in bytes: its gate and its length.
pub const FRAME_SIZE: u64 = 5;

/// A region of a device: where it begins and its size in bytes, at least `LEAST_SIZE`.
#[derive(Clone, Copy, Debug, PartialEq, Eq)]
pub struct Region {
    pub at: u64,
    pub size: u64,
}

/// The place in a region of the closed gate behind its batches.
#[derive(Clone, Copy, Debug, PartialEq, Eq)]
pub struct Tail {
    pub place: u64,
}
