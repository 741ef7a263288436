//! Why a device was not opened.

use crate::Region;
use thiserror::Error;

/// Why a device was not opened.
#[derive(Clone, Copy, Debug, PartialEq, Eq, Error)]
pub enum OpenFault {
    /// In this part, at this place, stands the first field that is refused.
    #[error("the device is not formed: byte {1} of a part is refused")]
    NotFormed(Region, u64),
    /// The format has this version, which is not known.
    #[error("the device has version {0}")]
    Version(u32),
    #[error("the device failed")]
    Device,
    #[error("out of memory")]
    NoMemory,
}

/// Why a device was not formatted.
#[derive(Clone, Copy, Debug, PartialEq, Eq, Error)]
pub enum FormatFault {
    #[error("no device has such sizes")]
    BadParams,
    /// How many bytes the device has.
    #[error("the device holds {0} bytes")]
    NotEmpty(u64),
    #[error("the device failed")]
    Device,
    #[error("out of memory")]
    NoMemory,
}
