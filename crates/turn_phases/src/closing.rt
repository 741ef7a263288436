//! The end of an engine, whatever turn is out.
ghost use Rattle.std.specs.Prelude.{◌≡◌};
ghost use Rattle.media_disk.specs.Calls.{CallsMade};
ghost use Rattle.media_disk.specs.Leaves.{LeavesOnly};
ghost use Rattle.hse_rows.specs.machine.Core.{Core};
ghost use Rattle.engine_state.specs.Serves.{IsSound};
ghost use Rattle.kvdb.specs.Leaving.{CloseReports};
ghost use Rattle.kvdb.specs.Serves.{Serves};
ghost use Rattle.kvdb.specs.Turns.{TurnOf, RanOf};
ghost use Rattle.kvdb.specs.declared.side.Side.TheVariants as side;
ghost use Rattle.turn_phases.specs.Closing.{ClosesWith, StoresWithin};
ghost use Rattle.turn_phases.specs.Devices.{device_of};
ghost use Rattle.turn_phases.specs.Serves.{PhasesServe};

use crate::held::Held;
use crate::phases::TurnPhases;
use engine_state::steps_keep_states_sound;
use kvdb::{CloseFault, Closed, Kvdb, Ran, Turn};
use media_disk::Disk;
use std::alloc::Global;

/// Ends the turn that has run, and closes the engine.
fn close_ran<D: Disk>(alloc: Global, db: Kvdb<D>, ran: Ran<D>) -> Closed<D>
    requires out { db.side ≡ side.Out ran.kind ran.number }
    ensures closes { (m : Core) → IsSound m → Serves D.Device db m → RanOf D.Device ran m
        → ClosesWith D.Device m result.result result.disk }
    ensures crash { (m : Core) → IsSound m → Serves D.Device db m → RanOf D.Device ran m → D.tells
        → LeavesOnly D.Device ran.back.disk result.disk (StoresWithin m) }
    ensures calls { CallsMade D.Device ran.back.disk result.disk }
    ensures reports { CloseReports (D.faults ran.back.disk) (D.faults result.disk) result.result }
{
    steps_keep_states_sound();
    let mut engine = db;
    match engine.end_turn(ran) {
        Ok(_) => return engine.close(alloc),
        Err(_) => return engine.close(alloc),
    }
}

/// Writes and ends the turn that was taken, and closes the engine.
fn close_taken<D: Disk>(alloc: Global, db: Kvdb<D>, turn: Turn<D>) -> Closed<D>
    requires out { db.side ≡ side.Out turn.kind turn.number }
    ensures closes { (m : Core) → IsSound m → Serves D.Device db m → TurnOf D.Device turn m
        → ClosesWith D.Device m result.result result.disk }
    ensures crash { (m : Core) → IsSound m → Serves D.Device db m → TurnOf D.Device turn m → D.tells
        → LeavesOnly D.Device turn.back.disk result.disk (StoresWithin m) }
    ensures calls { CallsMade D.Device turn.back.disk result.disk }
    ensures reports { CloseReports (D.faults turn.back.disk) (D.faults result.disk) result.result }
{
    steps_keep_states_sound();
    let ran = turn.run();
    if ran.failed() {
        match db.stop() {
            Some(_disk) => unreachable!(),
            None => {}
        }
        return Closed {
            disk: ran.stop(),
            result: Err(CloseFault::Device),
        };
    }
    close_ran(alloc, db, ran)
}

impl<D: Disk> TurnPhases<D> {
    /// Makes all safe and gives the disk back: a turn that is out is written, if it was not, and ended, and
    /// then what waits is written as a sync does. `Broken` comes exactly where the engine is broken, and
    /// `Device` only where a device call failed. Whenever the device stops within, it stores the life at a
    /// number from the safe one on.
    pub fn close(self, alloc: Global) -> Closed<D>
        ensures closes { (m : Core) → PhasesServe D.Device self m
            → ClosesWith D.Device m result.result result.disk }
        ensures crash { (m : Core) → PhasesServe D.Device self m → D.tells
            → LeavesOnly D.Device (device_of self) result.disk (StoresWithin m) }
        ensures calls { CallsMade D.Device (device_of self) result.disk }
        ensures reports { CloseReports (D.faults (device_of self)) (D.faults result.disk) result.result }
    {
        let TurnPhases { db, held } = self;
        match held {
            Held::Nothing => return db.close(alloc),
            Held::Taken(turn) => return close_taken(alloc, db, turn),
            Held::Run(ran) => return close_ran(alloc, db, ran),
        }
    }

    /// Ends the run without closing: the disk as it is, also where a turn is out. It takes no memory and
    /// makes no device call.
    pub fn stop(self) -> D
        ensures { result ≡ device_of self }
    {
        let TurnPhases { db, held } = self;
        match held {
            Held::Nothing => match db.stop() {
                Some(disk) => return disk,
                None => unreachable!(),
            },
            Held::Taken(turn) => match db.stop() {
                Some(_disk) => unreachable!(),
                None => return turn.stop(),
            },
            Held::Run(ran) => match db.stop() {
                Some(_disk) => unreachable!(),
                None => return ran.stop(),
            },
        }
    }
}
