//! An engine is opened.
ghost use Rattle.std.specs.Prelude.{◌≡◌, IfOk};
ghost use Rattle.kvdb.specs.Opening.{LeavesDevice};
ghost use Rattle.turn_phases.specs.Starting.{Opens, engine_of};
ghost use Rattle.turn_phases.specs.declared.held.Held.TheVariants as held;

use crate::held::Held;
use crate::phases::TurnPhases;
use kvdb::{Kvdb, engines_begin_sound_lives};
use media_disk::Disk;
use recovery::OpenFault;
use std::alloc::Global;

impl<D: Disk> TurnPhases<D> {
    /// Opens a device, as `Kvdb::start` does, with no turn out: `NotFormed` and `Version` come exactly
    /// where `recover` answers them of this device, and `Device` only where the device failed; then the
    /// disk comes back with the fault.
    pub fn start(alloc: Global, disk: D) -> Result<TurnPhases<D>, (D, OpenFault)>
        ensures opens { D.tells → Opens D.Device (D.seen disk) result }
        ensures device { LeavesDevice D.Device disk (engine_of result) }
        ensures home { IfOk result (λ phases. phases.held ≡ held.Nothing) }
    {
        engines_begin_sound_lives::<D>();
        match Kvdb::start(alloc, disk) {
            Ok(db) => Ok(TurnPhases {
                db,
                held: Held::Nothing,
            }),
            Err(left) => Err(left),
        }
    }
}
