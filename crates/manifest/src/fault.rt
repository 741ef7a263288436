//! Why an entry was not added.

use gate_log::AppendFault;
use thiserror::Error;

/// Why an entry was not added to the manifest.
#[derive(Clone, Copy, Debug, PartialEq, Eq, Error)]
pub enum ManifestFault {
    /// What the batch needs, and the room that the half has, in bytes.
    #[error("the batch needs {0} bytes and the half has room for {1}")]
    ManifestFull(u64, u64),
    #[error("the device failed")]
    Device,
}

impl From<AppendFault> for ManifestFault {
    ghost use Rattle.manifest.specs.Faults.{IsSameFullness};

    ghost from_gives = { λ fault same. IsSameFullness fault same };

    fn from(fault: AppendFault) -> Self {
        match fault {
            AppendFault::Full(need, room) => ManifestFault::ManifestFull(need, room),
            AppendFault::Device => ManifestFault::Device,
        }
    }
}
