//! Adds a batch to a region.
ghost use Rattle.std.specs.Prelude.{◌≡◌, ◌+◌, ◌<◌, ℕ, List, [], ◌∷◌, ◌++◌, OnOk};
ghost use Rattle.media_disk.specs.Calls.{CallsMade};
ghost use Rattle.media_disk.specs.Content.{put_at, Torn};
ghost use Rattle.gate_log.specs.Answers.{IsAppendAnswer, AppendReports};
ghost use Rattle.gate_log.specs.Framed.{framed};
ghost use Rattle.gate_log.specs.Gates.{Gated, IsWritten, open_gate};
ghost use Rattle.gate_log.specs.Places.{region_of, tail_of, IsApart, LiesIn};
ghost use Rattle.gate_log.specs.Crashes.{LeavesRegion, OldOrNew};

use crate::gate::OPEN;
use crate::synced_write::write_and_sync;
use crate::{Batch, Region, Tail};
use media_disk::{Disk, Failed};
use thiserror::Error;

/// Why a batch was not added.
#[derive(Clone, Copy, Debug, PartialEq, Eq, Error)]
pub enum AppendFault {
    /// What the batch needs, and the room that the region has left, in bytes.
    #[error("the batch needs {0} bytes and the region has {1} left")]
    Full(u64, u64),
    #[error("the device failed")]
    Device,
}

impl From<Failed> for AppendFault {
    ghost use Rattle.std.specs.Prelude.{◌≡◌};
    ghost use Rattle.gate_log.specs.declared.appending.AppendFault.TheVariants.{Device};

    ghost from_gives = { λ _ fault. fault ≡ Device };

    fn from(_: Failed) -> Self {
        AppendFault::Device
    }
}

/// Adds the batch behind those of the region: one write of length, payload and a closed next gate,
/// a sync, one write of the open gate, a sync. It takes no memory. Whenever the device stops, the
/// region holds its old batches, or the old ones and this one; after `Ok` nothing is pending.
/// `Full` comes before any device call; after `Device` the region holds either, and the tail stays.
///
/// The conditions: the region lies inside the device, `tail` is the place of its closed gate, and
/// nothing is pending in the region.
pub fn append<D: Disk>(
    disk: &mut D,
    region: &Region,
    tail: &mut Tail,
    batch: &Batch,
) -> Result<(), AppendFault>
    requires inside { LiesIn region.now (D.extent disk.old) }
    requires tail { tail.old.place < region.now.size }

    ensures answer { IsAppendAnswer region.now tail.old tail.new batch.now result }
    ensures calls { CallsMade D.Device disk.old disk.new }
    ensures reports { AppendReports D.Device disk.old disk.new result }
    ensures extent { D.extent disk.new ≡ D.extent disk.old }
    ensures appended { D.tells → OnOk result ((sequence : ℕ) (payloads : List (List ℕ))
        → tail.old.place ≡ tail_of payloads
        → Gated (region_of region.now (D.seen disk.old)) sequence payloads
        → IsWritten (region_of region.now (D.seen disk.new)) sequence
        (payloads ++ batch.now ∷ [])) }
    ensures bytes { D.tells → OnOk result (D.seen disk.new
        ≡ put_at (D.seen disk.old) (region.now.at + tail.old.place) (open_gate ∷ framed batch.now)) }
    ensures others { D.tells
        → Torn region.now.at region.now.size (D.seen disk.old) (D.seen disk.new) }
    ensures durable { D.tells → OnOk result (D.pending disk.new ≡ []) }
    ensures crash { D.tells → (sequence : ℕ) (payloads : List (List ℕ))
        → tail.old.place ≡ tail_of payloads
        → Gated (region_of region.now (D.seen disk.old)) sequence payloads
        → IsApart region.now (D.pending disk.old)
        → LeavesRegion D.Device region.now disk.old disk.new (OldOrNew sequence payloads batch.now) }
{
    let need = batch.need();
    let room = region.size - (tail.place + 1);
    if room < need {
        return Err(AppendFault::Full(need, room));
    }
    let gate = region.at + tail.place;
    write_and_sync(disk, gate + 1, batch.framed())?;
    write_and_sync(disk, gate, OPEN)?;
    tail.place += need;
    Ok(())
}
