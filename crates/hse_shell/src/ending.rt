//! The last line of a run that ends early.
ghost use Rattle.std.specs.Prelude.{◌≡◌, ◌≤◌};
ghost use Rattle.hse_shell.specs.Ending.{status_text, AppendsOrFails};

use hse_io::{Sink, Status};

/// The line that tells a status, or nothing.
fn line_of(status: Status) -> &'static [u8]
    ensures { result.now ≡ status_text status }
{
    match status {
        Status::Usage => b"fault usage\n",
        Status::ReadFault => b"fault read\n",
        Status::DeviceFault => b"fault device\n",
        Status::NoMemory => b"fault memory\n",
        Status::LineTooLong => b"fault line-too-long\n",
        Status::ScriptTooLong => b"fault script-too-long\n",
        Status::Done
        | Status::WriteFault
        | Status::NotFormed
        | Status::NotEmpty
        | Status::BadParams
        | Status::Refused => b"",
    }
}

/// Writes the line that tells why a run ended. Where that fails too, a front of it was written.
pub fn tell<K: Sink>(sink: &mut K, status: Status)
    ensures told { AppendsOrFails (K.faults sink.old) (K.faults sink.new)
        (K.contents sink.old) (K.contents sink.new) (status_text status) }
    ensures later { K.faults sink.old ≤ K.faults sink.new }
{
    match sink.write(line_of(status)) {
        Ok(()) => {}
        Err(_) => {}
    }
}
