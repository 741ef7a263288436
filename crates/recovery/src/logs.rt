//! Reads the log of a device.
ghost use Rattle.std.specs.Prelude.{◌≡◌, ◌≤◌, ◌+◌, ◌^◌, ℕ, List, IfOk};
ghost use Rattle.media_disk.specs.Calls.{CallsMade, OnlyReads};
ghost use Rattle.gate_log.specs.Places.{region_of};
ghost use Rattle.gate_log.specs.Reading.{EndsInside, IsFront};
ghost use Rattle.device_layout.specs.Layouts.{IsGood, size_of_device};
ghost use Rattle.manifest.specs.Views.{metadata_as, stores_as};
ghost use Rattle.recovery.specs.Answers.{IsLogRead, IsQuiet, IsSoundLog, OpenReports};
ghost use Rattle.recovery.specs.Image.{log_region, longest_value, prefixes_of};

use crate::layer::ActiveLayer;
use crate::{OpenFault, Region};
use device_layout::Layout;
use gate_log::{Front, FrontFault, read_front};
use hse_io::NoMemory;
use hse_rows::{TakenRun, longest_value};
use ingest_tree::IngestTree;
use manifest::{Base, BaseStore};
use media_disk::Disk;
use std::alloc::Global;
use wal::{SegmentEnd, SegmentFault, StorePrefix, segment_into};

/// The sequence of the one segment that is needed, and its place among the segments.
pub(crate) const FIRST: u64 = 1;

/// What was read of a log: how it ends, the rows of its commits, and the greatest store id that their
/// changes name, or 0.
#[derive(Drop)]
pub(crate) struct ReadLog {
    pub(crate) end: SegmentEnd,
    pub(crate) rows: IngestTree,
    pub(crate) named: u64,
}

/// The most bytes that a value has on this device.
fn longest(layout: Layout) -> u64
    requires { IsGood layout }
    ensures { result ≡ longest_value layout }
{
    longest_value(2u64.pow(layout.power as u32))
}

/// The prefix lengths of these stores.
fn prefixes(alloc: Global, stores: &[BaseStore]) -> Result<Vec<StorePrefix>, NoMemory>
    ensures { IfOk result (λ live. live.items ≡ prefixes_of (stores_as stores.now)) }
{
    let mut live = Vec::new(alloc);
    let mut rest = stores;
    while let [store, more @ ..] = rest {
        live.push(StorePrefix {
            store: store.id,
            length: store.prefix,
        })?;
        rest = more;
    }
    Ok(live)
}

/// The log that its front says, behind this base.
fn log_of(
    alloc: Global,
    layout: Layout,
    base: &Base,
    front: Option<Front>,
) -> Result<ReadLog, OpenFault>
    requires good { IsGood layout }
    requires inside { EndsInside layout.log front }
    ensures log { (image : List ℕ) → IsFront (region_of (log_region layout) image) front
        → IsLogRead layout image (metadata_as base.now) result }
    ensures sound { IfOk result (IsSoundLog layout.log) }
    ensures quiet { IsQuiet result }
{
    let Some(front) = front else {
        return Err(OpenFault::NotFormed(Region::Log(FIRST as u8), 0));
    };
    if front.sequence != FIRST {
        return Err(OpenFault::NotFormed(Region::Log(FIRST as u8), 0));
    }
    let Ok(live) = prefixes(alloc, &base.stores) else {
        return Err(OpenFault::NoMemory);
    };
    let most = longest(layout);
    let next = base.horizon + 1;
    let taken: &[TakenRun] = &base.taken;
    let mut layer = ActiveLayer {
        alloc,
        rows: IngestTree::empty(),
        named: 0,
    };
    match segment_into(
        alloc, layout.log, most, next, taken, &live, front, &mut layer,
    ) {
        Ok(end) => Ok(ReadLog {
            end,
            rows: layer.rows,
            named: layer.named,
        }),
        Err(SegmentFault::Damaged(place)) => {
            Err(OpenFault::NotFormed(Region::Log(FIRST as u8), place))
        }
        Err(SegmentFault::NoMemory) => Err(OpenFault::NoMemory),
    }
}

/// The log of a device of this layout, behind this base.
pub(crate) fn read_log<D: Disk>(
    alloc: Global,
    disk: &mut D,
    layout: Layout,
    base: &Base,
) -> Result<ReadLog, OpenFault>
    requires good { IsGood layout }
    requires inside { size_of_device layout ≤ D.extent disk.old }
    ensures log { D.tells → IsLogRead layout (D.seen disk.old) (metadata_as base.now) result }
    ensures sound { IfOk result (IsSoundLog layout.log) }
    ensures calls { CallsMade D.Device disk.old disk.new }
    ensures reports { OpenReports D.Device disk.old disk.new result }
    ensures reads { OnlyReads D.Device disk.old disk.new }
{
    match read_front(alloc, disk, &layout.segment(FIRST as u8)) {
        Ok(front) => log_of(alloc, layout, base, front),
        Err(FrontFault::Device) => Err(OpenFault::Device),
        Err(FrontFault::NoMemory) => Err(OpenFault::NoMemory),
    }
}
