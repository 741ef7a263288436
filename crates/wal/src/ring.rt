//! Where a device's log is.
ghost use Rattle.std.specs.Prelude.{◌+◌, ◌-◌, ◌<◌, ◌≤◌};
ghost use Rattle.gate_log.specs.Gates.{first_gate};
ghost use Rattle.wal.specs.Charges.{end_size};

use gate_log::{Region, Tail};

/// Where a device's log is: the active segment, which takes the next commits. Of it the region and
/// the sequence, the place of the closed gate behind its batches, and what its commits take of its
/// room, in bytes.
#[derive(Clone, Copy)]
pub struct Ring {
    pub region: Region,
    pub sequence: u64,
    pub tail: Tail,
    pub charges: u64,
    ghost fits: { charges ≤ region.size - end_size },
    ghost placed: { tail.place ≤ first_gate + charges },
    ghost inside: { tail.place < region.size },
}
