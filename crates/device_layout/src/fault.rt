//! Why a superblock was not read.

use thiserror::Error;

/// Why a superblock was not read.
#[derive(Clone, Copy, Debug, PartialEq, Eq, Error)]
pub enum LayoutFault {
    /// At this place stands the first field that is refused.
    #[error("the superblock is damaged at byte {0}")]
    Damaged(u64),
    /// The format has this version, which is not known.
    #[error("the device has version {0}")]
    Version(u32),
}
