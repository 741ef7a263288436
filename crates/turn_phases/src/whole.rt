//! A turn as a whole.
ghost use Rattle.std.specs.Prelude.{◌≡◌};
ghost use Rattle.media_disk.specs.Calls.{CallsMade};
ghost use Rattle.media_disk.specs.Leaves.{LeavesOnly};
ghost use Rattle.hse_rows.specs.machine.Core.{Core};
ghost use Rattle.engine_state.specs.Serves.{handed};
ghost use Rattle.kvdb.specs.Found.{StoresFrom};
ghost use Rattle.kvdb.specs.Taking.{wish_as};
ghost use Rattle.turn_phases.specs.Devices.{device_of};
ghost use Rattle.turn_phases.specs.Serves.{PhasesServe};
ghost use Rattle.turn_phases.specs.Turns.{StaysRefused, TurnsWhole, WholeReports, taken_for};

use crate::faults::WholeFault;
use crate::phases::TurnPhases;
use engine_state::steps_keep_states_sound;
use kvdb::{Broken, TurnWish};
use media_disk::Disk;
use std::alloc::Global;

impl<D: Disk> TurnPhases<D> {
    /// Takes a turn, makes its device calls and ends it, and answers its number; then all up to it is safe.
    /// `Refused` is the first refusal of the taking, and then all is as before. `Device` comes exactly
    /// where a device call failed: then no turn is out, the engine is broken, and what the taking did
    /// stays. Whenever the device stops within, it stores the life at a number from what is safe up to the
    /// turn's.
    pub fn whole_turn(&mut self, alloc: Global, what: &TurnWish) -> Result<u64, WholeFault>
        ensures turns { (m : Core) → PhasesServe D.Device self.old m
            → TurnsWhole D.Device m (wish_as what.now) result self.new }
        ensures crash { (m : Core) → PhasesServe D.Device self.old m → D.tells
            → LeavesOnly D.Device (device_of self.old) (device_of self.new)
            (StoresFrom (taken_for m (wish_as what.now)) (handed (taken_for m (wish_as what.now)))) }
        ensures calls { CallsMade D.Device (device_of self.old) (device_of self.new) }
        ensures reports { (m : Core) → PhasesServe D.Device self.old m
            → WholeReports (D.faults (device_of self.old)) (D.faults (device_of self.new)) result }
        ensures refused { StaysRefused (device_of self.old) (device_of self.new) result }
        ensures moment { self.new.db.moment ≡ self.old.db.moment }
    {
        steps_keep_states_sound();
        match self.db.take_turn(alloc, what) {
            Err(fault) => return Err(WholeFault::Refused(fault)),
            Ok(turn) => {
                let ran = turn.run();
                if ran.failed() {
                    self.db.mark_broken(&ran);
                    let _broken = self.db.end_turn(ran);
                    return Err(WholeFault::Device);
                }
                match self.db.end_turn(ran) {
                    Ok(number) => return Ok(number),
                    Err(Broken) => return Err(WholeFault::Device),
                }
            }
        }
    }
}
