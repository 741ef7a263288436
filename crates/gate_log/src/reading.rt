//! Reads a region from its device.
ghost use Rattle.std.specs.Prelude.{◌≤◌, IfOk};
ghost use Rattle.media_disk.specs.Calls.{CallsMade, OnlyReads};
ghost use Rattle.gate_log.specs.Answers.{FrontReports, RegionReports};
ghost use Rattle.gate_log.specs.Gates.{least_size};
ghost use Rattle.gate_log.specs.Places.{region_of, LiesIn};
ghost use Rattle.gate_log.specs.Reading.{IsFront, EndsInside, IsReading, IsInside};

use crate::parse::{found_in, front_in};
use crate::{Found, Front, FrontFault, Region, RegionFault};
use media_disk::Disk;
use std::alloc::Global;

/// What the region holds, up to what ends its batches: `None` where its head is closed, else its
/// sequence, the batches that lie inside it, and the closed gate behind them or the place of the
/// length of the batch that does not lie inside. `Device` comes only where the device failed.
///
/// The conditions: the region has at least `LEAST_SIZE` bytes and lies inside the device.
pub fn read_front<D: Disk>(
    alloc: Global,
    disk: &mut D,
    region: &Region,
) -> Result<Option<Front>, FrontFault>
    requires inside { LiesIn region.now (D.extent disk.old) }
    requires size { least_size ≤ region.now.size }

    ensures found { D.tells → IfOk result (IsFront (region_of region.now (D.seen disk.old))) }
    ensures inside { IfOk result (EndsInside region.now.size) }
    ensures calls { CallsMade D.Device disk.old disk.new }
    ensures reports { FrontReports D.Device disk.old disk.new result }
    ensures reads { OnlyReads D.Device disk.old disk.new }
{
    let mut bytes = vec![in alloc; 0; region.size as usize]?;
    disk.read(region.at, &mut bytes)?;
    Ok(front_in(alloc, &bytes)?)
}

/// What the region holds: `None` where its head is closed, else its sequence, its batches up to the
/// first closed gate, and the place of that gate. `Damaged` has the place of the length of the
/// first batch that does not lie inside the region. No region has two readings, so
/// each answer comes exactly where it is true, but for `Device`, which comes only where the device
/// failed, and `NoMemory`.
///
/// The conditions: the region has at least `LEAST_SIZE` bytes and lies inside the device.
pub fn read_region<D: Disk>(
    alloc: Global,
    disk: &mut D,
    region: &Region,
) -> Result<Option<Found>, RegionFault>
    requires inside { LiesIn region.now (D.extent disk.old) }
    requires size { least_size ≤ region.now.size }

    ensures found { D.tells → IsReading (region_of region.now (D.seen disk.old)) result }
    ensures inside { IsInside region.now.size result }
    ensures calls { CallsMade D.Device disk.old disk.new }
    ensures reports { RegionReports D.Device disk.old disk.new result }
    ensures reads { OnlyReads D.Device disk.old disk.new }
{
    let front = read_front(alloc, disk, region)?;
    found_in(front)
}
