//! The sizes that bound what an engine takes.

/// The sizes of a device's slots and log segments in bytes, and how many stores may be live.
#[derive(Clone, Copy, Debug, PartialEq, Eq)]
pub struct EngineSizes {
    pub slot_size: u64,
    pub segment_size: u64,
    pub most_stores: u64,
}
