//! What a reading of a region gives.

use crate::{FrontFault, Tail};
use thiserror::Error;

/// The payload of one batch.
#[derive(Drop)]
pub struct Payload {
    pub bytes: Vec<u8>,
}

/// What a region with an open head holds: its sequence, its batches in order, and the place of the
/// closed gate behind them.
#[derive(Drop)]
pub struct Found {
    pub sequence: u64,
    pub batches: Vec<Payload>,
    pub tail: Tail,
}

/// Why a region was not read.
#[derive(Clone, Copy, Debug, PartialEq, Eq, Error)]
pub enum RegionFault {
    /// At this place in the region, in bytes, stands the length of a batch that does not lie inside
    /// the region.
    #[error("the region is damaged at byte {0}")]
    Damaged(u64),
    #[error("the device failed")]
    Device,
    #[error("out of memory")]
    NoMemory,
}

impl From<FrontFault> for RegionFault {
    ghost use Rattle.gate_log.specs.Reading.{IsSameFault};

    ghost from_gives = { λ fault same. IsSameFault fault same };

    fn from(fault: FrontFault) -> Self {
        match fault {
            FrontFault::Device => RegionFault::Device,
            FrontFault::NoMemory => RegionFault::NoMemory,
        }
    }
}
