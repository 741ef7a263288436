//! An engine is opened.
ghost use Rattle.std.specs.Prelude.{◌≡◌, ◌≤◌, ℕ, List, [], Some, IfErr, IfOk};
ghost use Rattle.device_layout.specs.Layouts.{params_of, sizes_of, size_of_device};
ghost use Rattle.hse_rows.specs.machine.Core.{life};
ghost use Rattle.engine_state.specs.Serves.{SizesServe};
ghost use Rattle.recovery.specs.Answers.{Finds, HasParts};
ghost use Rattle.recovery.specs.Image.{IsLoaded, Loaded};
ghost use Rattle.recovery.specs.Machine.{stored_of};
ghost use Rattle.kvdb.specs.Opening.{Opens, LeavesDevice};
ghost use Rattle.kvdb.specs.Serves.{Serves};
ghost use Rattle.kvdb.specs.Sides.{device_in};

use crate::engine::Kvdb;
use crate::log_start::LogStart;
use crate::new_device::prepare;
use crate::side::Side;
use back::{Back, loaded_metadata_may_be_bases};
use device_layout::Layout;
use engine_state::{EngineSizes, EngineState};
use manifest::Base;
use media_disk::Disk;
use recovery::{OpenFault, Recovered, images_have_one_loading, recover};
use std::alloc::Global;

/// The sizes of a layout that bound what an engine takes.
pub(crate) fn sizes_in(layout: Layout) -> EngineSizes
    requires power { layout.power ≤ 25 }
    ensures { SizesServe result (sizes_of (params_of layout)) }
{
    EngineSizes {
        slot_size: 2u64.pow(layout.power as u32),
        segment_size: layout.log,
        most_stores: layout.stores as u64,
    }
}

/// What a base says beside its stores.
pub(crate) fn log_start_of(base: Base) -> LogStart
    ensures horizon { result.horizon ≡ base.horizon }
    ensures first { result.first ≡ base.first }
    ensures taken { result.taken ≡ base.taken }
{
    let Base {
        horizon,
        first,
        taken,
        stores: _,
    } = base;
    LogStart {
        horizon,
        first,
        taken,
    }
}

/// The engine over what was recovered of a disk; out of memory the disk comes back.
fn opened<D: Disk>(alloc: Global, disk: D, recovered: Recovered) -> Result<Kvdb<D>, D>
    requires parts { HasParts recovered }
    requires inside { size_of_device recovered.layout ≤ D.extent disk }
    ensures serves { (image : List ℕ) (loaded : Loaded) → IsLoaded image loaded → Finds loaded recovered
        → (D.tells → D.seen disk ≡ image) → (D.tells → D.pending disk ≡ [])
        → IfOk result (λ db. Serves D.Device db (life (stored_of loaded))) }
    ensures home { IfOk result (λ db. device_in db.side ≡ Some disk) }
    ensures moment { IfOk result (λ db. db.moment ≡ recovered.moment) }
    ensures kept { IfErr result (λ left. left ≡ disk) }
{
    loaded_metadata_may_be_bases();
    let Recovered {
        view,
        layout,
        log,
        manifest,
        base,
        number: _,
        moment,
    } = recovered;
    let sizes = sizes_in(layout);
    let Ok(state) = EngineState::of(alloc, view, log.charges, sizes) else {
        return Err(disk);
    };
    let sequence = manifest.sequence;
    Ok(Kvdb {
        side: Side::In(Back {
            disk,
            layout,
            log,
            manifest,
        }),
        state,
        log_start: log_start_of(base),
        sequence,
        free: layout.slots as u64,
        moment,
    })
}

impl<D: Disk> Kvdb<D> {
    /// Opens a device. It is asked for its size, and an empty one is made a new one with the default
    /// parameters. Then comes a barrier, and what it stores, as `recover` reads it, and the engine begins a
    /// life there. `NotFormed` and `Version` come exactly where `recover` answers them of this device, and
    /// `Device` exactly where the device failed; then the disk comes back with the fault. To a device that
    /// has bytes nothing is written, and the barrier is its second call.
    pub fn start(alloc: Global, disk: D) -> Result<Kvdb<D>, (D, OpenFault)>
        ensures opens { D.tells → Opens D.Device (D.seen disk) result }
        ensures device { LeavesDevice D.Device disk result }
    {
        images_have_one_loading();
        let mut left = disk;
        match prepare(alloc, &mut left) {
            Ok(()) => {}
            Err(fault) => return Err((left, fault)),
        }
        let recovered = match recover(alloc, &mut left) {
            Ok(recovered) => recovered,
            Err(fault) => return Err((left, fault)),
        };
        match opened(alloc, left, recovered) {
            Ok(db) => Ok(db),
            Err(disk) => Err((disk, OpenFault::NoMemory)),
        }
    }
}
