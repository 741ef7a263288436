//! The phases of a turn.
ghost use Rattle.std.specs.Prelude.{◌≡◌};
ghost use Rattle.media_disk.specs.Calls.{CallsMade};
ghost use Rattle.media_disk.specs.Leaves.{LeavesOnly};
ghost use Rattle.hse_rows.specs.machine.Calls.{take};
ghost use Rattle.hse_rows.specs.machine.Core.{Core};
ghost use Rattle.hse_rows.specs.machine.Replies as answer;
ghost use Rattle.engine_state.specs.Serves.{handed};
ghost use Rattle.kvdb.specs.Found.{StoresFrom};
ghost use Rattle.kvdb.specs.Says.{SaysTurn};
ghost use Rattle.kvdb.specs.Taking.{wish_as};
ghost use Rattle.turn_phases.specs.Devices.{device_of};
ghost use Rattle.turn_phases.specs.Serves.{PhasesServe};
ghost use Rattle.turn_phases.specs.Steps.{Steps};
ghost use Rattle.turn_phases.specs.Turns.{Ends, WriteReports, Writes};
ghost use Rattle.turn_phases.specs.declared.held.Held.TheVariants as held;

use crate::faults::{EndFault, RunFault, TurnPhase};
use crate::held::Held;
use crate::phases::TurnPhases;
use engine_state::steps_keep_states_sound;
use kvdb::{Broken, TurnFault, TurnWish};
use media_disk::Disk;
use std::alloc::Global;
use std::mem::replace;

/// Holds a turn where none was held.
pub(crate) fn hold<D: Disk>(place: &mut Held<D>, turn: Held<D>)
    requires { place.old ≡ held.Nothing }
    ensures { place.new ≡ turn }
{
    match replace(place, turn) {
        Held::Nothing => {}
        Held::Taken(_turn) => unreachable!(),
        Held::Run(_ran) => unreachable!(),
    }
}

impl<D: Disk> TurnPhases<D> {
    /// Takes the turn, as `Kvdb::take_turn` does: with every test, all memory and no device call. The
    /// refusals come in the order of the table of turns, and `Busy` exactly where a turn is out and no
    /// earlier one is so. After a fault all is as before.
    pub fn take_turn(&mut self, alloc: Global, what: &TurnWish) -> Result<(), TurnFault>
        ensures takes { (m : Core) → PhasesServe D.Device self.old m
            → Steps D.Device (λ _. answer.accepted) SaysTurn m (take (wish_as what.now)) result self.new }
        ensures device { device_of self.new ≡ device_of self.old }
        ensures moment { self.new.db.moment ≡ self.old.db.moment }
    {
        steps_keep_states_sound();
        match self.db.take_turn(alloc, what) {
            Err(fault) => return Err(fault),
            Ok(turn) => {
                hold(&mut self.held, Held::Taken(turn));
                return Ok(());
            }
        }
    }

    /// Makes the device calls of the turn that was taken. `Phase` comes exactly where no turn is out that
    /// has not made them, and then nothing is done. `Device` comes exactly where a device call failed:
    /// then the engine is broken, and the turn is one that has run. Whenever the device stops within, it
    /// stores the life at a number from what is safe up to the turn's. It takes no memory.
    pub fn write_turn(&mut self) -> Result<(), RunFault>
        ensures writes { (m : Core) → PhasesServe D.Device self.old m → Writes D.Device m result self.new }
        ensures crash { (m : Core) → PhasesServe D.Device self.old m → D.tells
            → LeavesOnly D.Device (device_of self.old) (device_of self.new) (StoresFrom m (handed m)) }
        ensures calls { CallsMade D.Device (device_of self.old) (device_of self.new) }
        ensures reports { WriteReports (D.faults (device_of self.old)) (D.faults (device_of self.new)) result }
        ensures moment { self.new.db.moment ≡ self.old.db.moment }
    {
        steps_keep_states_sound();
        match replace(&mut self.held, Held::Nothing) {
            Held::Nothing => return Err(RunFault::Phase(TurnPhase::Home)),
            Held::Run(ran) => {
                hold(&mut self.held, Held::Run(ran));
                return Err(RunFault::Phase(TurnPhase::Run));
            }
            Held::Taken(turn) => {
                let ran = turn.run();
                if ran.failed() {
                    self.db.mark_broken(&ran);
                    hold(&mut self.held, Held::Run(ran));
                    return Err(RunFault::Device);
                }
                hold(&mut self.held, Held::Run(ran));
                return Ok(());
            }
        }
    }

    /// Ends the turn that has run, and answers its number; then all up to it is safe. `Phase` comes exactly
    /// where no turn has run, and then nothing is done. `Broken` comes exactly where a device call of it
    /// failed; the turn is given back all the same. It takes no memory and makes no device call.
    pub fn end_turn(&mut self) -> Result<u64, EndFault>
        ensures ends { (m : Core) → PhasesServe D.Device self.old m → Ends D.Device m result self.new }
        ensures device { device_of self.new ≡ device_of self.old }
        ensures moment { self.new.db.moment ≡ self.old.db.moment }
    {
        steps_keep_states_sound();
        match replace(&mut self.held, Held::Nothing) {
            Held::Nothing => return Err(EndFault::Phase(TurnPhase::Home)),
            Held::Taken(turn) => {
                hold(&mut self.held, Held::Taken(turn));
                return Err(EndFault::Phase(TurnPhase::Taken));
            }
            Held::Run(ran) => match self.db.end_turn(ran) {
                Ok(number) => return Ok(number),
                Err(Broken) => return Err(EndFault::Broken),
            },
        }
    }
}
