//! Starts a region afresh.
ghost use Rattle.std.specs.Prelude.{◌≡◌, ◌≤◌, [], IfOk, OnOk};
ghost use Rattle.hse_io.specs.Faults.{HasCause};
ghost use Rattle.media_disk.specs.Calls.{CallsMade};
ghost use Rattle.media_disk.specs.Content.{put_at, Torn};
ghost use Rattle.gate_log.specs.Gates.{IsWritten, first_gate, least_size, started_text};
ghost use Rattle.gate_log.specs.Places.{region_of, IsApart, LiesIn};
ghost use Rattle.gate_log.specs.Crashes.{LeavesRegion, ClosedOrStarted};

use crate::closing::close_head;
use crate::gate::OPEN;
use crate::synced_write::write_and_sync;
use crate::{FIRST_GATE, Region, Tail};
use byteorder::{BigEndian, ByteOrder};
use media_disk::{Disk, Failed};

/// Starts the region with this sequence and no batches: it closes the head where it is open, writes
/// the sequence and a closed first gate, and opens the head, with a sync after each. It takes no
/// memory. Whenever the device stops, the head is closed, or the region is as it was, or it has the
/// sequence and no batches; after `Ok` nothing is pending. It fails only where the device did.
///
/// A closed head is left alone until the end: what a stopped start left behind it may be anything,
/// and a write of the head that is cut off could open it over that.
///
/// The conditions: the region has at least `LEAST_SIZE` bytes and lies inside the device, and
/// nothing is pending in it.
pub fn start<D: Disk>(disk: &mut D, region: &Region, sequence: u64) -> Result<Tail, Failed>
    requires inside { LiesIn region.now (D.extent disk.old) }
    requires size { least_size ≤ region.now.size }

    ensures tail { IfOk result (λ tail. tail.place ≡ first_gate) }
    ensures calls { CallsMade D.Device disk.old disk.new }
    ensures cause { HasCause (D.faults disk.old) (D.faults disk.new) result }
    ensures extent { D.extent disk.new ≡ D.extent disk.old }
    ensures started { D.tells
        → OnOk result (IsWritten (region_of region.now (D.seen disk.new)) sequence []) }
    ensures bytes { D.tells → OnOk result
        (D.seen disk.new ≡ put_at (D.seen disk.old) region.now.at (started_text sequence)) }
    ensures others { D.tells
        → Torn region.now.at region.now.size (D.seen disk.old) (D.seen disk.new) }
    ensures durable { D.tells → OnOk result (D.pending disk.new ≡ []) }
    ensures crash { D.tells → IsApart region.now (D.pending disk.old)
        → LeavesRegion D.Device region.now disk.old disk.new
        (ClosedOrStarted (region_of region.now (D.seen disk.old)) sequence) }
{
    let mut opening = [0; FIRST_GATE as usize];
    BigEndian::write_u64(&mut opening, sequence);
    close_head(disk, region)?;
    write_and_sync(disk, region.at + 1, &opening)?;
    write_and_sync(disk, region.at, OPEN)?;
    Ok(Tail { place: FIRST_GATE })
}
