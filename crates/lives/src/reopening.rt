//! A next life begins.
ghost use Rattle.std.specs.Prelude.{◌≡◌, ◌<◌, ◌^◌, IfSome};
ghost use Rattle.kvdb.specs.Sides.{clock_in};
ghost use Rattle.turn_phases.specs.Devices.{device_of};
ghost use Rattle.lives.specs.Openings.{ReadsDevice, Reopens};
ghost use Rattle.lives.specs.Serves.{LivesServe};
ghost use Rattle.lives.specs.Stories.{Story};

use crate::faults::Unmarked;
use crate::run::Lives;
use kvdb::ReopenFault;
use media_disk::Disk;
use std::alloc::Global;

impl<D: Disk> Lives<D> {
    /// The disk's clock has eight bytes, so that the clock behind a barrier is not below it. Nothing is done.
    fn clock_has_eight_bytes(&self)
        ensures { IfSome (clock_in D.Device self.now.phases.db.side) (λ clock. clock < 2 ^ 64) }
    {
        match self.phases.clock() {
            Some(_clock) => {}
            None => {}
        }
    }

    /// Drops the state in memory and opens the device again, as `TurnPhases::reopen` does: a next life
    /// begins, with a mark of its number since the barrier. Room for the mark is made first: where there
    /// is none all is as before. `Fault` is what `TurnPhases::reopen` answers, and makes no mark.
    pub fn reopen(&mut self, alloc: Global) -> Result<u64, Unmarked<ReopenFault>>
        ensures reopens { (s : Story) → LivesServe D.Device self.old s → Reopens D.Device s result self.new }
        ensures device { (s : Story) → LivesServe D.Device self.old s
            → ReadsDevice D.Device (device_of self.old.phases) (device_of self.new.phases) result }
    {
        let Ok(()) = self.make_room() else {
            return Err(Unmarked::NoMemory);
        };
        self.clock_has_eight_bytes();
        match self.phases.reopen(alloc) {
            Err(fault) => return Err(Unmarked::Fault(fault)),
            Ok(number) => {
                let moment = self.phases.moment();
                self.note_life(number, moment);
                return Ok(number);
            }
        }
    }
}
