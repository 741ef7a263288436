//! One line and its reply, on the sink.
ghost use Rattle.std.specs.Prelude.{◌≡◌, ◌^◌, ◌<◌, ◌≤◌, length, OnOk, IfErr, IsErrOf};
ghost use Rattle.hse_io.specs.Faults.{Rose};
ghost use Rattle.hse_shell.specs.Machine.{Machine};
ghost use Rattle.hse_shell.specs.Logged.{Serves};
ghost use Rattle.hse_shell.specs.Stored.{device_size};
ghost use Rattle.hse_shell.specs.Turns.{Replied, Unreplied};

use crate::engine::Engine;
use crate::turn::{Stop, turn};
use hse_io::{Sink, Status};
use media_disk::Disk;
use std::alloc::Global;

/// Answers one line and writes its reply, which a silent line has not. An `Err` is why the run ends early.
pub(crate) fn answer<K: Sink, D: Disk>(
    alloc: Global,
    sink: &mut K,
    disk: &mut D,
    engine: &mut Engine,
    line: &[u8],
    text: &mut Vec<u8>,
) -> Result<(), Status>
    requires extent { D.extent disk.old ≡ device_size }
    requires short { length line.now < 2 ^ 32 }
    ensures replied { OnOk result ((m : Machine) → Serves D.Device disk.old engine.old m
        → Replied D.Device m line.now (K.contents sink.old) (K.contents sink.new) disk.new engine.new) }
    ensures unreplied { IfErr result (λ ended. (m : Machine) → Serves D.Device disk.old engine.old m
        → Unreplied D.Device ended m line.now (K.contents sink.old) (K.contents sink.new) disk.new engine.new.marks.items) }
    ensures read { IsErrOf result Status.ReadFault → ⊥ }
    ensures write { IsErrOf result Status.WriteFault → Rose (K.faults sink.old) (K.faults sink.new) }
    ensures device { IsErrOf result Status.DeviceFault → Rose (D.faults disk.old) (D.faults disk.new) }
    ensures later { (K.faults sink.old ≤ K.faults sink.new) × (D.faults disk.old ≤ D.faults disk.new) }
    ensures extent { D.extent disk.new ≡ D.extent disk.old }
{
    text.clear();
    match turn(alloc, engine, disk, line, text) {
        Ok(()) => {}
        Err(Stop::Device) => return Err(Status::DeviceFault),
        Err(Stop::NoMemory) => return Err(Status::NoMemory),
    }
    if text.is_empty() {
        return Ok(());
    }
    match sink.write(text) {
        Ok(()) => Ok(()),
        Err(_) => Err(Status::WriteFault),
    }
}
