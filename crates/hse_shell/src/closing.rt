//! The end of a script.
ghost use Rattle.std.specs.Prelude.{◌≡◌, ◌<◌, ◌≤◌, OnOk};
ghost use Rattle.std.specs.Io.KnownBytes.{Appends};
ghost use Rattle.hse_io.specs.Faults.{Rose};
ghost use Rattle.hse_shell.specs.Ending.{AppendsFront};
ghost use Rattle.hse_shell.specs.Machine.{Machine};
ghost use Rattle.hse_shell.specs.Logged.{Serves};
ghost use Rattle.hse_shell.specs.Replies.{closed_text};
ghost use Rattle.hse_shell.specs.Stored.{device_size};
ghost use Rattle.hse_shell.specs.Turns.{Closes, Parts};

use crate::engine::Engine;
use crate::log::FlushFault;
use crate::reply::closed_line;
use hse_io::{Outcome, Sink, Status};
use media_disk::Disk;
use std::alloc::Global;

/// Writes the last line of a run to the end of its script.
fn part<K: Sink>(sink: &mut K, number: u64, text: &mut Vec<u8>) -> Status
    ensures parts { Parts result number (K.contents sink.old) (K.contents sink.new) }
    ensures write { result ≡ Status.WriteFault → Rose (K.faults sink.old) (K.faults sink.new) }
    ensures later { K.faults sink.old ≤ K.faults sink.new }
{
    text.clear();
    let Ok(()) = closed_line(number, text) else {
        return Status::NoMemory;
    };
    match sink.write(text) {
        Ok(()) => Status::Done,
        Err(_) => Status::WriteFault,
    }
}

/// Makes all commits safe, marks it, and writes the last line of a run to the end of its script.
pub(crate) fn close<K: Sink, D: Disk>(
    alloc: Global,
    sink: &mut K,
    disk: &mut D,
    engine: Engine,
    text: &mut Vec<u8>,
) -> Outcome
    requires { D.extent disk.old ≡ device_size }
    ensures closes { (m : Machine) → Serves D.Device disk.old engine m → Closes D.Device result.status m
        (K.contents sink.old) (K.contents sink.new) disk.new result.marks.items }
    ensures read { result.status ≡ Status.ReadFault → ⊥ }
    ensures write { result.status ≡ Status.WriteFault → Rose (K.faults sink.old) (K.faults sink.new) }
    ensures device { result.status ≡ Status.DeviceFault → Rose (D.faults disk.old) (D.faults disk.new) }
    ensures later { K.faults sink.old ≤ K.faults sink.new }
{
    let mut engine = engine;
    match engine.flush(alloc, disk) {
        Ok(()) => {}
        Err(FlushFault::NoMemory) => return engine.ended(Status::NoMemory),
        Err(FlushFault::Device) => return engine.ended(Status::DeviceFault),
    }
    let status = part(sink, engine.number, text);
    let marks = engine.closed_at(disk.clock());
    Outcome { status, marks }
}
