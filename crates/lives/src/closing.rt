//! The end of a run.
ghost use Rattle.std.specs.Prelude.{◌≡◌};
ghost use Rattle.media_disk.specs.Calls.{CallsMade};
ghost use Rattle.kvdb.specs.Leaving.{CloseReports};
ghost use Rattle.turn_phases.specs.Closing.{ClosesWith};
ghost use Rattle.turn_phases.specs.Devices.{device_of};
ghost use Rattle.lives.specs.Endings.{left_by};
ghost use Rattle.lives.specs.Marks.{Left, Marked};
ghost use Rattle.lives.specs.Serves.{LivesServe};
ghost use Rattle.lives.specs.Stories.{Story};

use crate::marks::push_reserved;
use crate::run::Lives;
use hse_io::Mark;
use kvdb::{CloseFault, Closed};
use media_disk::Disk;
use std::alloc::Global;

/// What is left of a run that was closed: its disk, the last number where all is safe, and the marks.
pub struct LivesClosed<D> {
    pub disk: D,
    pub result: Result<u64, CloseFault>,
    pub marks: Vec<Mark>,
}

/// What is left of a run that was not: its disk as it is, and the marks.
pub struct LivesStopped<D> {
    pub disk: D,
    pub marks: Vec<Mark>,
}

impl<D: Disk> Lives<D> {
    /// Makes all safe and gives the disk and the marks back, as `TurnPhases::close` does. Where that ends
    /// well there is a mark of the last number, in room that was made at the opening; a turn that is
    /// finished here has none of its own. The marks hold, however it ends.
    pub fn close(self, alloc: Global) -> LivesClosed<D>
        ensures closes { (s : Story) → LivesServe D.Device self s
            → ClosesWith D.Device s.machine result.result result.disk }
        ensures marked { (s : Story) → LivesServe D.Device self s
            → Marked D.Device result.disk result.marks.items (left_by s result.result) }
        ensures left { (s : Story) → LivesServe D.Device self s
            → Left D.Device result.disk result.marks.items (left_by s result.result) }
        ensures calls { CallsMade D.Device (device_of self.phases) result.disk }
        ensures reports { CloseReports (D.faults (device_of self.phases)) (D.faults result.disk) result.result }
    {
        let Lives {
            phases,
            mut marks,
            life,
        } = self;
        let Closed { disk, result } = phases.close(alloc);
        match result {
            Err(fault) => {
                return LivesClosed {
                    disk,
                    result: Err(fault),
                    marks,
                };
            }
            Ok(number) => {
                let mark = Mark {
                    life,
                    number,
                    moment: disk.clock(),
                };
                push_reserved(&mut marks, mark);
                return LivesClosed {
                    disk,
                    result: Ok(number),
                    marks,
                };
            }
        }
    }

    /// Ends the run without closing: the disk as it is, also where a turn is out, and the marks. It takes
    /// no memory and makes no device call.
    pub fn stop(self) -> LivesStopped<D>
        ensures disk { result.disk ≡ device_of self.phases }
        ensures marks { result.marks ≡ self.marks }
        ensures left { (s : Story) → LivesServe D.Device self s
            → Left D.Device result.disk result.marks.items s }
    {
        let Lives {
            phases,
            marks,
            life: _,
        } = self;
        LivesStopped {
            disk: phases.stop(),
            marks,
        }
    }
}
