//! Closes a region.
ghost use Rattle.std.specs.Prelude.{◌≡◌, ◌≤◌, OnOk};
ghost use Rattle.hse_io.specs.Faults.{HasCause};
ghost use Rattle.media_disk.specs.Calls.{CallsMade};
ghost use Rattle.media_disk.specs.Content.{Torn};
ghost use Rattle.gate_log.specs.Gates.{IsClosed, least_size};
ghost use Rattle.gate_log.specs.Places.{region_of, IsApart, LiesIn};
ghost use Rattle.gate_log.specs.Crashes.{LeavesRegion, ClosedOrSame};

use crate::Region;
use crate::gate::{CLOSED, OPEN_GATE};
use crate::synced_write::write_and_sync;
use media_disk::{Disk, Failed};

/// Closes the head of the region where it is open, and syncs. A closed one is not written again: a
/// write that is cut off could open it.
pub(crate) fn close_head<D: Disk>(disk: &mut D, region: &Region) -> Result<(), Failed>
    requires inside { LiesIn region.now (D.extent disk.old) }
    requires size { least_size ≤ region.now.size }
    ensures calls { CallsMade D.Device disk.old disk.new }
    ensures cause { HasCause (D.faults disk.old) (D.faults disk.new) result }
    ensures extent { D.extent disk.new ≡ D.extent disk.old }
    ensures closed { D.tells → OnOk result (IsClosed (region_of region.now (D.seen disk.new))) }
    ensures others { D.tells → Torn region.now.at 1 (D.seen disk.old) (D.seen disk.new) }
    ensures apart { D.tells → IsApart region.now (D.pending disk.old)
        → OnOk result (IsApart region.now (D.pending disk.new)) }
    ensures crash { D.tells → IsApart region.now (D.pending disk.old)
        → LeavesRegion D.Device region.now disk.old disk.new
        (ClosedOrSame (region_of region.now (D.seen disk.old))) }
{
    let mut head = [0];
    disk.read(region.at, &mut head)?;
    if head[0] != OPEN_GATE {
        return Ok(());
    }
    write_and_sync(disk, region.at, CLOSED)
}
