//! An engine is opened again in place.
ghost use Rattle.std.specs.Prelude.{◌≡◌, IfOk, OnErr};
ghost use Rattle.media_disk.specs.Leaves.{LeavesOnly};
ghost use Rattle.hse_rows.specs.machine.Core.{Core};
ghost use Rattle.recovery.specs.Keeps.{IsBarrier};
ghost use Rattle.kvdb.specs.Found.{StoresFrom};
ghost use Rattle.kvdb.specs.Reopening.{last_left};
ghost use Rattle.turn_phases.specs.Devices.{device_of};
ghost use Rattle.turn_phases.specs.Reopening.{ReadsDevice, Reopens};
ghost use Rattle.turn_phases.specs.Serves.{PhasesServe};

use crate::phases::TurnPhases;
use engine_state::steps_keep_states_sound;
use kvdb::{ReopenFault, engines_begin_sound_lives};
use media_disk::Disk;
use std::alloc::Global;

impl<D: Disk> TurnPhases<D> {
    /// Drops the state in memory and opens the device again, as `Kvdb::reopen` does. The answer is the
    /// number at which the new life begins. `Busy` comes exactly where a turn is out. `Open` is what the
    /// opening answers, and `Device` comes only where the device failed: then the engine is broken. After
    /// another fault it is as before.
    pub fn reopen(&mut self, alloc: Global) -> Result<u64, ReopenFault>
        ensures reopens { (m : Core) → PhasesServe D.Device self.old m → Reopens D.Device m result self.new }
        ensures device { (m : Core) → PhasesServe D.Device self.old m
            → ReadsDevice D.Device (device_of self.old) (device_of self.new) result }
        ensures crash { (m : Core) → PhasesServe D.Device self.old m → D.tells
            → LeavesOnly D.Device (device_of self.old) (device_of self.new) (StoresFrom m (last_left m)) }
        ensures barrier { (m : Core) → PhasesServe D.Device self.old m → IfOk result
            (λ _. IsBarrier D.Device (device_of self.old) (device_of self.new) self.new.db.moment) }
        ensures kept { OnErr result (self.new.db.moment ≡ self.old.db.moment) }
    {
        steps_keep_states_sound();
        engines_begin_sound_lives::<D>();
        self.db.reopen(alloc)
    }
}
