//! Turns and their marks.
ghost use Rattle.std.specs.Prelude.{◌≡◌};
ghost use Rattle.media_disk.specs.Calls.{CallsMade};
ghost use Rattle.hse_rows.specs.machine.Calls.{take};
ghost use Rattle.hse_rows.specs.machine.Replies as answer;
ghost use Rattle.kvdb.specs.Says.{SaysTurn};
ghost use Rattle.kvdb.specs.Taking.{wish_as};
ghost use Rattle.turn_phases.specs.Devices.{device_of};
ghost use Rattle.turn_phases.specs.Turns.{WriteReports};
ghost use Rattle.lives.specs.Serves.{LivesServe};
ghost use Rattle.lives.specs.Steps.{Steps};
ghost use Rattle.lives.specs.Stories.{Story};
ghost use Rattle.lives.specs.Turns.{Ends, TurnsWhole, WholeReports, Writes};

use crate::faults::Unmarked;
use crate::run::Lives;
use kvdb::{TurnFault, TurnWish};
use media_disk::Disk;
use std::alloc::Global;
use turn_phases::{EndFault, RunFault, WholeFault};

impl<D: Disk> Lives<D> {
    /// Takes the turn, as `TurnPhases::take_turn` does: with every test and no device call. It has a mark at
    /// its end alone.
    pub fn take_turn(&mut self, alloc: Global, what: &TurnWish) -> Result<(), TurnFault>
        ensures takes { (s : Story) → LivesServe D.Device self.old s
            → Steps D.Device (λ _. answer.accepted) SaysTurn s (take (wish_as what.now)) result self.new }
        ensures device { device_of self.new.phases ≡ device_of self.old.phases }
    {
        self.phases.take_turn(alloc, what)
    }

    /// Makes the device calls of the turn that was taken, as `TurnPhases::write_turn` does. Each mark holds
    /// at each moment within. It takes no memory.
    pub fn write_turn(&mut self) -> Result<(), RunFault>
        ensures writes { (s : Story) → LivesServe D.Device self.old s → Writes D.Device s result self.new }
        ensures calls { CallsMade D.Device (device_of self.old.phases) (device_of self.new.phases) }
        ensures reports { WriteReports (D.faults (device_of self.old.phases))
            (D.faults (device_of self.new.phases)) result }
    {
        self.phases.write_turn()
    }

    /// Ends the turn that has run, and answers its number, with a mark of it and the disk's clock. Room for
    /// the mark is made first: where there is none all is as before. `Fault` is what
    /// `TurnPhases::end_turn` answers, and makes no mark. No device call is made.
    pub fn end_turn(&mut self) -> Result<u64, Unmarked<EndFault>>
        ensures ends { (s : Story) → LivesServe D.Device self.old s → Ends D.Device s result self.new }
        ensures device { device_of self.new.phases ≡ device_of self.old.phases }
    {
        let Ok(()) = self.make_room() else {
            return Err(Unmarked::NoMemory);
        };
        match self.phases.end_turn() {
            Err(fault) => return Err(Unmarked::Fault(fault)),
            Ok(number) => {
                self.note_now(number);
                return Ok(number);
            }
        }
    }

    /// Takes a turn, makes its device calls and ends it, and answers its number, with a mark of it and the
    /// disk's clock. Room for the mark is made first: where there is none all is as before. `Fault` is
    /// what `TurnPhases::whole_turn` answers, and makes no mark. Each mark holds at each moment within.
    pub fn whole_turn(
        &mut self,
        alloc: Global,
        what: &TurnWish,
    ) -> Result<u64, Unmarked<WholeFault>>
        ensures turns { (s : Story) → LivesServe D.Device self.old s
            → TurnsWhole D.Device s (wish_as what.now) result self.new }
        ensures calls { CallsMade D.Device (device_of self.old.phases) (device_of self.new.phases) }
        ensures reports { (s : Story) → LivesServe D.Device self.old s
            → WholeReports (D.faults (device_of self.old.phases)) (D.faults (device_of self.new.phases)) result }
    {
        let Ok(()) = self.make_room() else {
            return Err(Unmarked::NoMemory);
        };
        match self.phases.whole_turn(alloc, what) {
            Err(fault) => return Err(Unmarked::Fault(fault)),
            Ok(number) => {
                self.note_now(number);
                return Ok(number);
            }
        }
    }
}
