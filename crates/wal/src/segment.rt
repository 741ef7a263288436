//! What a segment of the log holds.

use crate::Commit;
use gate_log::Tail;
use std::alloc::AllocError;
use thiserror::Error;

/// What a segment holds: its sequence, its commits in the order of their numbers, what they take of
/// its room in bytes, the place of the closed gate behind its batches, and the least number that
/// may come next, unless it is taken.
#[derive(Drop)]
pub struct Segment {
    pub sequence: u64,
    pub commits: Vec<Commit>,
    pub charges: u64,
    pub tail: Tail,
    pub next: u64,
}

/// How a segment ends whose commits were taken as they were read: its sequence, what they take of its
/// room in bytes, the place of the closed gate behind its batches, and the least number that may come
/// next, unless it is taken.
#[derive(Clone, Copy, Debug, PartialEq, Eq)]
pub struct SegmentEnd {
    pub sequence: u64,
    pub charges: u64,
    pub tail: Tail,
    pub next: u64,
}

/// Why a segment was not read.
#[derive(Clone, Copy, Debug, PartialEq, Eq, Error)]
pub enum SegmentFault {
    /// At this place in the segment's region, in bytes, stands the first field that is refused.
    #[error("the segment is damaged at byte {0}")]
    Damaged(u64),
    #[error("out of memory")]
    NoMemory,
}

impl From<AllocError> for SegmentFault {
    ghost use Rattle.std.specs.Prelude.{◌≡◌};
    ghost use Rattle.wal.specs.declared.segment.SegmentFault.TheVariants.{NoMemory};

    ghost from_gives = { λ _ fault. fault ≡ NoMemory };

    fn from(_: AllocError) -> Self {
        SegmentFault::NoMemory
    }
}
