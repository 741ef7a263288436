//! A script, line by line.
ghost use Rattle.std.specs.Prelude.{◌≡◌, ◌+◌, ◌^◌, ◌<◌, ◌≤◌, [], Some, Ok, IfSome, OnOk, IfErr, IsErrOf, length};
ghost use Rattle.hse_io.specs.Faults.{Rose};
ghost use Rattle.hse_io.specs.Longest.{longest_script};
ghost use Rattle.hse_io.specs.declared.source.Got.{Got};
ghost use Rattle.hse_shell.specs.Machine.{Machine};
ghost use Rattle.hse_shell.specs.Logged.{Serves};
ghost use Rattle.hse_shell.specs.Stored.{device_size};
ghost use Rattle.hse_shell.specs.SoFar.{Start, SoFar};
ghost use Rattle.hse_shell.specs.Ends.{Stops};

use crate::answering::answer;
use crate::engine::Engine;
use hse_io::{Got, LONGEST_SCRIPT, Line, LineFault, NoMemory, Sink, Source, Status};
use media_disk::Disk;
use std::alloc::Global;

/// A script that is being answered.
#[derive(Drop)]
pub(crate) struct Script {
    /// The line taken last.
    line: Line,
    /// Where the text of a reply is made.
    pub(crate) text: Vec<u8>,
    /// The bytes of the lines taken, each line counted with one byte more.
    pub(crate) taken: u64,
    ghost within: { taken ≤ longest_script },
}

impl Script {
    ghost use Rattle.std.specs.Prelude.{◌≡◌, IfOk};

    /// A script of which no line was taken.
    pub(crate) fn new(alloc: Global) -> Result<Script, NoMemory>
        ensures { IfOk result (λ script. script.taken ≡ 0) }
    {
        Ok(Script {
            line: Line::new(alloc)?,
            text: Vec::new(alloc),
            taken: 0,
        })
    }
}

/// Takes one line, answers it, and writes its reply. An `Err` is why the run ends early.
fn advance<S: Source, K: Sink, D: Disk>(
    alloc: Global,
    source: &mut S,
    sink: &mut K,
    disk: &mut D,
    engine: &mut Engine,
    script: &mut Script,
) -> Result<Got, Status>
    requires { D.extent disk.old ≡ device_size }
    ensures text { result ≡ Ok Got.Text → (start : Start D)
        → SoFar D.Device start (S.remaining source.old) (K.contents sink.old) disk.old engine.old script.old.taken
        → SoFar D.Device start (S.remaining source.new) (K.contents sink.new) disk.new engine.new script.new.taken }
    ensures ended { result ≡ Ok Got.Ended → (start : Start D)
        → SoFar D.Device start (S.remaining source.old) (K.contents sink.old) disk.old engine.old script.old.taken
        → SoFar D.Device start (S.remaining source.new) (K.contents sink.new) disk.new engine.new script.new.taken
        × IfSome start.input (λ all. S.remaining source.new ≡ Some []) }
    ensures stops { IfErr result (λ ended. (start : Start D)
        → SoFar D.Device start (S.remaining source.old) (K.contents sink.old) disk.old engine.old script.old.taken
        → Stops D.Device ended start (S.remaining source.new) (K.contents sink.new) disk.new engine.new.marks.items) }
    ensures read { IsErrOf result Status.ReadFault → Rose (S.faults source.old) (S.faults source.new) }
    ensures write { IsErrOf result Status.WriteFault → Rose (K.faults sink.old) (K.faults sink.new) }
    ensures device { IsErrOf result Status.DeviceFault → Rose (D.faults disk.old) (D.faults disk.new) }
    // Each line that is taken counts a byte at least.
    ensures counts { result ≡ Ok Got.Text → script.old.taken < script.new.taken }
    ensures later { (S.faults source.old ≤ S.faults source.new) × (K.faults sink.old ≤ K.faults sink.new)
        × (D.faults disk.old ≤ D.faults disk.new) }
    ensures extent { D.extent disk.new ≡ D.extent disk.old }
{
    match source.read_line(&mut script.line) {
        Ok(Got::Text) => {}
        Ok(Got::Ended) => return Ok(Got::Ended),
        Err(LineFault::Failed) => return Err(Status::ReadFault),
        Err(LineFault::TooLong) => return Err(Status::LineTooLong),
    }
    let line = script.line.bytes();
    match answer(alloc, sink, disk, engine, line, &mut script.text) {
        Ok(()) => {}
        Err(status) => return Err(status),
    }
    let taken = script.taken + line.len() as u64 + 1;
    if taken > LONGEST_SCRIPT {
        return Err(Status::ScriptTooLong);
    }
    script.taken = taken;
    Ok(Got::Text)
}

/// Answers line after line to the end of the input. An `Err` is why the run ends early.
pub(crate) fn answer_all<S: Source, K: Sink, D: Disk>(
    alloc: Global,
    source: &mut S,
    sink: &mut K,
    disk: &mut D,
    engine: &mut Engine,
    script: &mut Script,
) -> Result<(), Status>
    requires { D.extent disk.old ≡ device_size }
    ensures ended { OnOk result ((start : Start D)
        → SoFar D.Device start (S.remaining source.old) (K.contents sink.old) disk.old engine.old script.old.taken
        → SoFar D.Device start (S.remaining source.new) (K.contents sink.new) disk.new engine.new script.new.taken
        × IfSome start.input (λ all. S.remaining source.new ≡ Some [])) }
    ensures stops { IfErr result (λ ended. (start : Start D)
        → SoFar D.Device start (S.remaining source.old) (K.contents sink.old) disk.old engine.old script.old.taken
        → Stops D.Device ended start (S.remaining source.new) (K.contents sink.new) disk.new engine.new.marks.items) }
    ensures read { IsErrOf result Status.ReadFault → Rose (S.faults source.old) (S.faults source.new) }
    ensures write { IsErrOf result Status.WriteFault → Rose (K.faults sink.old) (K.faults sink.new) }
    ensures device { IsErrOf result Status.DeviceFault → Rose (D.faults disk.old) (D.faults disk.new) }
    ensures later { (S.faults source.old ≤ S.faults source.new) × (K.faults sink.old ≤ K.faults sink.new)
        × (D.faults disk.old ≤ D.faults disk.new) }
    ensures extent { D.extent disk.new ≡ D.extent disk.old }
{
    'lines: loop {
        match advance(alloc, source, sink, disk, engine, script) {
            Ok(Got::Text) => {}
            Ok(Got::Ended) => return Ok(()),
            Err(status) => return Err(status),
        }
    }
}
