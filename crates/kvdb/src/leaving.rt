//! The end of an engine.
ghost use Rattle.std.specs.Prelude.{◌≡◌, Some, IfSome, IsSome};
ghost use Rattle.media_disk.specs.Calls.{CallsMade};
ghost use Rattle.media_disk.specs.Leaves.{LeavesOnly};
ghost use Rattle.hse_rows.specs.machine.Core.{Core, number_of};
ghost use Rattle.engine_state.specs.Serves.{IsSound};
ghost use Rattle.kvdb.specs.Found.{StoresFrom};
ghost use Rattle.kvdb.specs.Leaving.{Closes, CloseReports, LeavesDisk};
ghost use Rattle.kvdb.specs.Serves.{Serves};
ghost use Rattle.kvdb.specs.Sides.{device_in};

use crate::engine::Kvdb;
use crate::running::disk_of;
use crate::side::Side;
use media_disk::Disk;
use std::alloc::Global;
use thiserror::Error;

/// Why an engine was not closed with all safe.
#[derive(Clone, Copy, Debug, PartialEq, Eq, Error)]
pub enum CloseFault {
    #[error("the device failed")]
    Device,
    /// A device call failed since the last opening.
    #[error("the engine is broken")]
    Broken,
    #[error("out of memory")]
    NoMemory,
}

/// What is left of an engine: its disk, and the last number where all is safe.
pub struct Closed<D> {
    pub disk: D,
    pub result: Result<u64, CloseFault>,
}

impl<D: Disk> Kvdb<D> {
    /// Ends the run without closing: the disk as it is, and none where a turn is out. It takes no memory
    /// and makes no device call.
    pub fn stop(self) -> Option<D>
        ensures { result ≡ device_in self.side }
    {
        let Kvdb {
            side,
            state: _,
            log_start: _,
            sequence: _,
            free: _,
            moment: _,
        } = self;
        match side {
            Side::In(back) => Some(disk_of(back)),
            Side::Out(_, _) => None,
        }
    }

    /// The disk, where no turn is out.
    fn into_disk(self) -> D
        requires { IsSome (device_in self.side) }
        ensures { device_in self.side ≡ Some result }
    {
        match self.stop() {
            Some(disk) => disk,
            None => unreachable!(),
        }
    }

    /// Makes all safe and gives the disk back: what waits is written as a sync does. `Broken` comes
    /// exactly where the engine is broken, and `Device` exactly where a device call failed. Broken or out
    /// of memory the disk is as it was, with no device call. Whenever the device stops within, it stores
    /// the life at a number from the safe one on.
    ///
    /// The condition: no turn is out.
    pub fn close(self, alloc: Global) -> Closed<D>
        requires home { IsSome (device_in self.side) }
        ensures closes { (m : Core) → IsSound m → Serves D.Device self m
            → Closes D.Device m result.result result.disk }
        ensures crash { (m : Core) → IsSound m → Serves D.Device self m → D.tells
            → IfSome (device_in self.side)
            (λ disk. LeavesOnly D.Device disk result.disk (StoresFrom m (number_of m))) }
        ensures calls { IfSome (device_in self.side) (λ disk. CallsMade D.Device disk result.disk) }
        ensures reports { IfSome (device_in self.side)
            (λ disk. CloseReports (D.faults disk) (D.faults result.disk) result.result) }
        ensures untouched { IfSome (device_in self.side)
            (λ disk. LeavesDisk disk result.disk result.result) }
    {
        let mut engine = self;
        if engine.state.is_broken() {
            let disk = engine.into_disk();
            return Closed {
                disk,
                result: Err(CloseFault::Broken),
            };
        }
        let Ok(turn) = engine.take_sync(alloc) else {
            let disk = engine.into_disk();
            return Closed {
                disk,
                result: Err(CloseFault::NoMemory),
            };
        };
        match engine.stop() {
            Some(_disk) => unreachable!(),
            None => {}
        }
        let number = turn.number;
        let ran = turn.run();
        let has_failed = ran.failed();
        let disk = ran.stop();
        if has_failed {
            return Closed {
                disk,
                result: Err(CloseFault::Device),
            };
        }
        Closed {
            disk,
            result: Ok(number),
        }
    }
}
