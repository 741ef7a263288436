//! A run of a script on a device.
ghost use Rattle.std.specs.Prelude.{◌≡◌, ◌⊎◌, ◌<◌, ◌≤◌, [], IsErrOf, OnOk, IfErr};
ghost use Rattle.std.specs.Io.KnownBytes.{Appends};
ghost use Rattle.hse_io.specs.Faults.{Rose};
ghost use Rattle.hse_shell.specs.Ending.{AppendsOrFails};
ghost use Rattle.hse_shell.specs.Ends.{EndsServed, EndsTold, Ends, Greets, IsGoodImage, IsGoodInput};
ghost use Rattle.hse_shell.specs.Logged.{Opened, WasEmptyOrStays};
ghost use Rattle.hse_shell.specs.Stored.{device_size};
ghost use Rattle.hse_shell.specs.Replies.{opened_text, not_formed_text};

use crate::closing::close;
use crate::ending::tell;
use crate::engine::Engine;
use crate::open::{OpenFault, open};
use crate::reply::{not_formed_line, opened_line};
use crate::script::{Script, answer_all};
use hse_io::{Outcome, Sink, Source, Status};
use media_disk::Disk;
use std::alloc::Global;

/// Writes the first line of a run. An `Err` is why the run ends early.
fn greet<K: Sink>(sink: &mut K, number: u64, text: &mut Vec<u8>) -> Result<(), Status>
    ensures greeted { OnOk result (Appends (K.contents sink.old) (K.contents sink.new) (opened_text number)) }
    ensures stops { IfErr result (λ ended. Greets ended number (K.contents sink.old) (K.contents sink.new)) }
    ensures write { IsErrOf result Status.WriteFault → Rose (K.faults sink.old) (K.faults sink.new) }
    ensures later { K.faults sink.old ≤ K.faults sink.new }
{
    text.clear();
    let Ok(()) = opened_line(number, text) else {
        return Err(Status::NoMemory);
    };
    match sink.write(text) {
        Ok(()) => Ok(()),
        Err(_) => Err(Status::WriteFault),
    }
}

/// Tells where the device is refused. Where there is no memory for the line, that ends the run.
fn refuse<K: Sink>(sink: &mut K, place: u64, text: &mut Vec<u8>) -> Status
    ensures status { (result ≡ Status.NotFormed) ⊎ (result ≡ Status.NoMemory) }
    ensures told { result ≡ Status.NotFormed → AppendsOrFails (K.faults sink.old) (K.faults sink.new)
        (K.contents sink.old) (K.contents sink.new) (not_formed_text place) }
    ensures silent { result ≡ Status.NoMemory → sink.new ≡ sink.old }
    ensures later { K.faults sink.old ≤ K.faults sink.new }
{
    text.clear();
    let Ok(()) = not_formed_line(place, text) else {
        return Status::NoMemory;
    };
    match sink.write(text) {
        Ok(()) => Status::NotFormed,
        Err(_) => Status::NotFormed,
    }
}

/// How a run ends whose device was not opened.
fn unopened(alloc: Global, status: Status) -> Outcome
    ensures status { result.status ≡ status }
    ensures marks { result.marks.items ≡ [] }
{
    Outcome {
        status,
        marks: Vec::new(alloc),
    }
}

/// Answers the script on an open device, and closes it.
fn serve_opened<S: Source, K: Sink, D: Disk>(
    alloc: Global,
    source: &mut S,
    sink: &mut K,
    disk: &mut D,
    engine: Engine,
    script: &mut Script,
) -> Outcome
    requires extent { D.extent disk.old ≡ device_size }
    requires fresh { script.old.taken ≡ 0 }
    ensures ends { (device : D) → Opened D.Device device disk.old engine → EndsServed D.Device result.status
        (record { device = device; input = S.remaining source.old; held = K.contents sink.old })
        (S.remaining source.new) (K.contents sink.new) disk.new result.marks.items }
    ensures read { result.status ≡ Status.ReadFault → Rose (S.faults source.old) (S.faults source.new) }
    ensures write { result.status ≡ Status.WriteFault → Rose (K.faults sink.old) (K.faults sink.new) }
    ensures device { result.status ≡ Status.DeviceFault → Rose (D.faults disk.old) (D.faults disk.new) }
    ensures later { K.faults sink.old ≤ K.faults sink.new }
{
    let mut engine = engine;
    match greet(sink, engine.number, &mut script.text) {
        Ok(()) => {}
        Err(status) => return engine.ended(status),
    }
    match answer_all(alloc, source, sink, disk, &mut engine, script) {
        Ok(()) => close(alloc, sink, disk, engine, &mut script.text),
        Err(status) => engine.ended(status),
    }
}

/// Opens the device and answers the script.
fn serve<S: Source, K: Sink, D: Disk>(
    alloc: Global,
    source: &mut S,
    sink: &mut K,
    disk: &mut D,
) -> Outcome
    ensures ends { EndsTold D.Device result.status
        (record { device = disk.old; input = S.remaining source.old; held = K.contents sink.old })
        (S.remaining source.new) (K.contents sink.new) (K.faults sink.old) (K.faults sink.new) disk.new result.marks.items }
    ensures read { result.status ≡ Status.ReadFault → Rose (S.faults source.old) (S.faults source.new) }
    ensures write { result.status ≡ Status.WriteFault → Rose (K.faults sink.old) (K.faults sink.new) }
    ensures device { result.status ≡ Status.DeviceFault → Rose (D.faults disk.old) (D.faults disk.new) }
    ensures later { K.faults sink.old ≤ K.faults sink.new }
{
    let Ok(mut script) = Script::new(alloc) else {
        return unopened(alloc, Status::NoMemory);
    };
    match open(alloc, disk) {
        Ok(engine) => serve_opened(alloc, source, sink, disk, engine, &mut script),
        Err(OpenFault::NotFormed(place)) => unopened(alloc, refuse(sink, place, &mut script.text)),
        Err(OpenFault::Device) => unopened(alloc, Status::DeviceFault),
        Err(OpenFault::NoMemory) => unopened(alloc, Status::NoMemory),
    }
}

/// Runs a script on a device: opens it, answers each line, and closes it at the end of the input.
///
/// An empty device is formatted, and another one goes on from what it stores. The lines written are `opened N`, a
/// reply for each line that is not silent, and `closed N`; a run that ends early writes its status's line at last.
/// A device that is not formed is refused at the first field that the format refuses, and left as it was. Where the
/// device fails the run ends at once.
///
/// The outcome has a mark of the opening, of each sync that was answered by a number, and of the closing, in this
/// order: whenever the device stops since the mark's moment, it stores the state after a prefix of the history that
/// holds all up to the mark's number.
pub fn run_script<S: Source, K: Sink, D: Disk>(
    alloc: Global,
    source: &mut S,
    sink: &mut K,
    disk: &mut D,
) -> Outcome
    // A fault is told only where the count of its object rose.
    ensures read { result.status ≡ Status.ReadFault → Rose (S.faults source.old) (S.faults source.new) }
    ensures write { result.status ≡ Status.WriteFault → Rose (K.faults sink.old) (K.faults sink.new) }
    ensures device { result.status ≡ Status.DeviceFault → Rose (D.faults disk.old) (D.faults disk.new) }

    // By its status: what was taken and written, as a run of the machine gives it, and what the device holds.
    ensures ends { Ends D.Device result.status
        (record { device = disk.old; input = S.remaining source.old; held = K.contents sink.old })
        (S.remaining source.new) (K.contents sink.new) (K.faults sink.old) (K.faults sink.new) disk.new result.marks.items }

    // Where no count rose, lines within their limits on an empty or formed device are run to their end, or memory is
    // refused.
    ensures complete { D.tells → IsGoodImage (D.seen disk.old) → IsGoodInput (S.remaining source.old)
        → ¬ Rose (S.faults source.old) (S.faults source.new) → ¬ Rose (K.faults sink.old) (K.faults sink.new)
        → ¬ Rose (D.faults disk.old) (D.faults disk.new)
        → (result.status ≡ Status.Done) ⊎ (result.status ≡ Status.NoMemory) }

    // Without a mark a device that held something stays as it was.
    ensures kept { result.marks.items ≡ [] → WasEmptyOrStays D.Device disk.old disk.new }
{
    let outcome = serve(alloc, source, sink, disk);
    match outcome.status {
        // These have written all that they tell.
        Status::Done | Status::NotFormed | Status::WriteFault => {}
        status => tell(sink, status),
    }
    outcome
}
