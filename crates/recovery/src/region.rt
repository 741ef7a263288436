//! The parts of a device in which a field may be refused.

/// A part of a device: the superblock, a half of the manifest, a segment of the log, or a slot.
#[derive(Clone, Copy, Debug, PartialEq, Eq)]
pub enum Region {
    Super,
    Manifest(u8),
    Log(u8),
    Slot(u32),
}
