//! What a reading of the manifest gives.

use crate::{Base, Manifest};
use thiserror::Error;

/// What a device's manifest says, and where it is.
#[derive(Drop)]
pub struct Loaded {
    pub manifest: Manifest,
    pub base: Base,
}

/// Why a manifest was not read.
#[derive(Clone, Copy, Debug, PartialEq, Eq, Error)]
pub enum LoadFault {
    /// In this half, at this place, stands the first field that is refused.
    #[error("half {0} of the manifest is damaged at byte {1}")]
    Damaged(u8, u64),
    #[error("the device failed")]
    Device,
    #[error("out of memory")]
    NoMemory,
}
