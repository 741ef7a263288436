//! What a region holds, up to what ends its batches.

use crate::{Payload, Tail};
use media_disk::Failed;
use std::alloc::AllocError;
use thiserror::Error;

/// What stands behind the batches of a region.
#[derive(Clone, Copy, Debug, PartialEq, Eq)]
pub enum End {
    /// A closed gate, at this place.
    Closed(Tail),
    /// An open gate whose batch does not lie inside the region: the place of that batch's length.
    CutOff(u64),
}

/// What a region with an open head holds: its sequence, the batches that lie inside it, in order,
/// and what stands behind them.
#[derive(Drop)]
pub struct Front {
    pub sequence: u64,
    pub batches: Vec<Payload>,
    pub end: End,
}

/// Why a region's bytes were not read.
#[derive(Clone, Copy, Debug, PartialEq, Eq, Error)]
pub enum FrontFault {
    #[error("the device failed")]
    Device,
    #[error("out of memory")]
    NoMemory,
}

impl From<Failed> for FrontFault {
    ghost use Rattle.std.specs.Prelude.{◌≡◌};
    ghost use Rattle.gate_log.specs.declared.front.FrontFault.TheVariants.{Device};

    ghost from_gives = { λ _ fault. fault ≡ Device };

    fn from(_: Failed) -> Self {
        FrontFault::Device
    }
}

impl From<AllocError> for FrontFault {
    ghost use Rattle.std.specs.Prelude.{◌≡◌};
    ghost use Rattle.gate_log.specs.declared.front.FrontFault.TheVariants.{NoMemory};

    ghost from_gives = { λ _ fault. fault ≡ NoMemory };

    fn from(_: AllocError) -> Self {
        FrontFault::NoMemory
    }
}
