//! The blocks of a set, and why a set was not opened.

use hse_io::NoMemory;
use thiserror::Error;

/// The bytes of a slot of the device.
#[derive(Drop)]
pub struct Block {
    /// Which slot of the device, counted from 0.
    pub slot: u32,
    pub bytes: Vec<u8>,
}

/// Why a set was not opened.
#[derive(Clone, Copy, Debug, PartialEq, Eq, Error)]
pub enum SetFault {
    /// The slot, and the place in it of the first field that is refused.
    #[error("slot {0} is damaged at {1}")]
    Damaged(u32, u64),
    /// There is no memory for what a set keeps beside its blocks.
    #[error("out of memory")]
    NoMemory,
}

impl From<NoMemory> for SetFault {
    ghost use Rattle.std.specs.Prelude.{◌≡◌};
    ghost use Rattle.kvset.specs.declared.block.SetFault.TheVariants.{NoMemory as OutOfMemory};

    ghost from_gives = { λ _ fault. fault ≡ OutOfMemory };

    fn from(_: NoMemory) -> Self {
        SetFault::NoMemory
    }
}
