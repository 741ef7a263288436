//! The first life begins.
ghost use Rattle.std.specs.Prelude.{◌≡◌, IfOk};
ghost use Rattle.kvdb.specs.Opening.{LeavesDevice};
ghost use Rattle.lives.specs.Openings.{Opens, engine_of};

use crate::marks::push_reserved;
use crate::run::Lives;
use hse_io::Mark;
use media_disk::Disk;
use recovery::OpenFault;
use std::alloc::Global;
use turn_phases::TurnPhases;

impl<D: Disk> Lives<D> {
    /// Opens a device, as `TurnPhases::start` does: the first life begins, with a mark of its number since
    /// the barrier. Room for this mark and for that of the closing is made before the device is looked at.
    /// `NotFormed` and `Version` come exactly where `recover` answers them of this device, and `Device` only
    /// where the device failed; then the disk comes back with the fault.
    pub fn start(alloc: Global, disk: D) -> Result<Lives<D>, (D, OpenFault)>
        ensures opens { D.tells → Opens D.Device (D.seen disk) result }
        ensures device { LeavesDevice D.Device disk (engine_of result) }
    {
        let Ok(mut marks) = Vec::with_capacity(alloc, 2) else {
            return Err((disk, OpenFault::NoMemory));
        };
        match TurnPhases::start(alloc, disk) {
            Err(left) => Err(left),
            Ok(phases) => {
                let mark = Mark {
                    life: 0,
                    number: phases.view().number(),
                    moment: phases.moment(),
                };
                push_reserved(&mut marks, mark);
                Ok(Lives {
                    phases,
                    marks,
                    life: 0,
                })
            }
        }
    }
}
