//! An engine is opened again in place.
ghost use Rattle.std.specs.Prelude.{◌≡◌, ◌≤◌, IfOk, IfSome, OnErr};
ghost use Rattle.media_disk.specs.Calls.{CallsMade};
ghost use Rattle.media_disk.specs.Leaves.{LeavesOnly};
ghost use Rattle.gate_log.specs.Places.{LiesIn};
ghost use Rattle.device_layout.specs.Layouts.{params_of, sizes_of, size_of_device};
ghost use Rattle.hse_rows.specs.machine.Core.{Core};
ghost use Rattle.engine_state.specs.Serves as in_memory;
ghost use Rattle.engine_state.specs.Serves.{IsSound};
ghost use Rattle.recovery.specs.Answers.{HasParts, IsRecovery, OpenReports};
ghost use Rattle.recovery.specs.Keeps.{IsBarrier, Keeps};
ghost use Rattle.kvdb.specs.Found.{StoresFrom};
ghost use Rattle.kvdb.specs.Reopening.{Reopens, IsNoted, IsSameSide, LeavesSide, last_left};
ghost use Rattle.kvdb.specs.Serves.{of_sets, Serves};
ghost use Rattle.kvdb.specs.Sides.{device_in};

use crate::engine::Kvdb;
use crate::opening::{log_start_of, sizes_in};
use crate::side::{Side, TurnKind};
use back::{Back, loaded_metadata_may_be_bases};
use device_layout::Layout;
use engine_state::EngineState;
use kvset::Kvset;
use manifest::Manifest;
use media_disk::Disk;
use recovery::{OpenFault, Recovered, images_have_one_loading, recover};
use std::alloc::Global;
use thiserror::Error;
use wal::Ring;

/// Why an engine was not opened again.
#[derive(Clone, Copy, Debug, PartialEq, Eq, Error)]
pub enum ReopenFault {
    /// A turn of this kind is out.
    #[error("a turn is out")]
    Busy(TurnKind),
    /// The opening answered this.
    #[error("the device was not opened")]
    Open(OpenFault),
}

/// What the device of a device side holds, as an opening reads it.
fn read_again<D: Disk>(alloc: Global, back: &mut Back<D>) -> Result<Recovered, OpenFault>
    ensures recovered { D.tells → IsRecovery (D.seen back.old.disk) result }
    ensures parts { IfOk result HasParts }
    ensures inside { IfOk result (λ r. size_of_device r.layout ≤ D.extent back.new.disk) }
    ensures calls { CallsMade D.Device back.old.disk back.new.disk
        × OpenReports D.Device back.old.disk back.new.disk result }
    ensures keeps { Keeps D.Device back.old.disk back.new.disk }
    ensures barrier { IfOk result (λ r. IsBarrier D.Device back.old.disk back.new.disk r.moment) }
    ensures same { (back.new.layout ≡ back.old.layout) × (back.new.log ≡ back.old.log)
        × (back.new.manifest ≡ back.old.manifest) }
{
    recover(alloc, &mut back.disk)
}

/// Gives a device side the places that were found on its device.
fn set_places<D: Disk>(back: &mut Back<D>, layout: Layout, log: Ring, manifest: Manifest)
    requires halves { size_of_device manifest.layout ≤ D.extent back.old.disk }
    requires segment { LiesIn log.region (D.extent back.old.disk) }
    ensures disk { back.new.disk ≡ back.old.disk }
    ensures layout { back.new.layout ≡ layout }
    ensures log { back.new.log ≡ log }
    ensures manifest { back.new.manifest ≡ manifest }
{
    back.layout = layout;
    back.log = log;
    back.manifest = manifest;
}

/// The state in memory after an opening that answered this: where the device failed it is broken.
fn note_fault(state: &mut EngineState<Kvset>, fault: OpenFault)
    ensures { (m : Core) → in_memory.Serves of_sets state.old m → IsNoted m fault state.new }
{
    match fault {
        OpenFault::Device => state.break_down(),
        OpenFault::NotFormed(_, _) => {}
        OpenFault::Version(_) => {}
        OpenFault::NoMemory => {}
    }
}

impl<D: Disk> Kvdb<D> {
    /// Drops the state in memory and opens the device again, as after a sudden end: transactions,
    /// cursors and commits that are not on the device are gone. The answer is the number at which the
    /// new life begins: the safe one, or where a device call had failed one from there up to the last.
    /// `Busy` comes exactly where a turn is out. `Open` is what the opening answers: `Device` exactly where
    /// the device failed, and then the engine is broken; `NotFormed` and `Version` never where the device
    /// tells its content, since it is formed. After another fault than `Device` the engine is as before,
    /// but for its disk's clock.
    pub fn reopen(&mut self, alloc: Global) -> Result<u64, ReopenFault>
        ensures reopens { (m : Core) → IsSound m → Serves D.Device self.old m
            → Reopens D.Device m result self.new }
        ensures device { LeavesSide D.Device self.old.side self.new.side result }
        ensures crash { (m : Core) → IsSound m → Serves D.Device self.old m → D.tells
            → IfSome (device_in self.old.side) (λ old. IfSome (device_in self.new.side)
            (λ new. LeavesOnly D.Device old new (StoresFrom m (last_left m)))) }
        ensures barrier { IfOk result (λ _. IfSome (device_in self.old.side)
            (λ old. IfSome (device_in self.new.side)
            (λ new. IsBarrier D.Device old new self.new.moment))) }
        ensures same { OnErr result (IsSameSide self.old.side self.new.side) }
        ensures kept { OnErr result (self.new.moment ≡ self.old.moment) }
    {
        images_have_one_loading();
        loaded_metadata_may_be_bases();
        match &mut self.side {
            Side::Out(kind, _) => return Err(ReopenFault::Busy(*kind)),
            Side::In(back) => {
                let recovered = match read_again(alloc, back) {
                    Ok(recovered) => recovered,
                    Err(fault) => {
                        note_fault(&mut self.state, fault);
                        return Err(ReopenFault::Open(fault));
                    }
                };
                let Recovered {
                    view,
                    layout,
                    log,
                    manifest,
                    base,
                    number,
                    moment,
                } = recovered;
                let sizes = sizes_in(layout);
                let Ok(state) = EngineState::of(alloc, view, log.charges, sizes) else {
                    return Err(ReopenFault::Open(OpenFault::NoMemory));
                };
                set_places(back, layout, log, manifest);
                self.state = state;
                self.log_start = log_start_of(base);
                self.sequence = manifest.sequence;
                self.free = layout.slots as u64;
                self.moment = moment;
                return Ok(number);
            }
        }
    }
}
