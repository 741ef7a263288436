//! The engine's log on the device.
ghost use Rattle.std.specs.Prelude.{◌≡◌, ◌<◌, ◌≤◌, ◌++◌, [], ◌∷◌, length, drop, vec_len, vec_capacity};
ghost use Rattle.byteorder.specs.Endian.{big_bytes};

use crate::engine::Engine;
use crate::reply::Reply;
use byteorder::{BigEndian, ByteOrder};
use gate_log::{AppendFault, Batch, Region, append};
use hse_io::{Mark, Outcome, Status};
use media_disk::{Disk, Failed};
use std::alloc::Global;

/// The device's size in bytes.
pub(crate) const DEVICE_SIZE: u64 = 4_194_304;

/// The whole device is one region.
pub(crate) const LOG: Region = Region {
    at: 0,
    size: DEVICE_SIZE,
};

/// Why the waiting commits were not put on the device.
#[derive(Clone, Copy, Debug, PartialEq, Eq)]
pub(crate) enum FlushFault {
    NoMemory,
    Device,
}

// Puts the count of the entries into the room before them.
fn write_count(payload: &mut Vec<u8>, count: u32)
    requires { 4 ≤ length payload.old.items }
    ensures items { payload.new.items ≡ big_bytes 4 count ++ drop 4 payload.old.items }
    ensures len { length payload.new.items ≡ length payload.old.items }
{
    BigEndian::write_u32(payload, count);
}

// Adds a mark in room that was made before.
fn push_reserved(marks: &mut Vec<Mark>, mark: Mark)
    requires { vec_len marks.old < vec_capacity marks.old }
    ensures items { marks.new.items ≡ marks.old.items ++ mark ∷ [] }
    ensures room { vec_capacity marks.old ≤ vec_capacity marks.new }
{
    marks.push(mark).unwrap();
}

impl Engine {
    ghost use Rattle.std.specs.Prelude.{◌≡◌, ◌≢◌, ◌+◌, ◌<◌, ◌≤◌, ◌++◌, ◌∷◌, [], ℕ, length, Ok, IfOk, OnOk, OnErr, IsErrOf, vec_len, vec_capacity};
    ghost use Rattle.hse_io.specs.Faults.{Rose};
    ghost use Rattle.hse_io.specs.declared.outcome.Mark.{Mark as a_mark};
    ghost use Rattle.hse_shell.specs.declared.log.FlushFault.{FlushFault};
    ghost use Rattle.hse_shell.specs.Machine.{Machine, flushed, noted, all_synced};
    ghost use Rattle.hse_shell.specs.Grammar.{syncs};
    ghost use Rattle.hse_shell.specs.Marks.{Marked, mark_of};
    ghost use Rattle.hse_shell.specs.ReplyView.{answer_of};
    ghost use Rattle.hse_shell.specs.Logged.{Serves, ServesLine};
    ghost use Rattle.hse_shell.specs.Stands.{NotesOnly};
    ghost use Rattle.hse_shell.specs.Stored.{device_size};

    /// Puts the waiting commits on the device as one batch. Where none waits there is no device call.
    pub(crate) fn flush<D: Disk>(&mut self, alloc: Global, disk: &mut D) -> Result<(), FlushFault>
        requires { D.extent disk.old ≡ device_size }
        ensures synced { OnOk result ((m : Machine) → Serves D.Device disk.old self.old m
            → Serves D.Device disk.new self.new (flushed m)) }
        ensures no_memory { IsErrOf result FlushFault.NoMemory → (m : Machine)
            → Serves D.Device disk.old self.old m → Serves D.Device disk.new self.new m }
        // Where the device fails, what is left of the marks holds with all commits, safe or not.
        ensures marked { IsErrOf result FlushFault.Device → (m : Machine)
            → Serves D.Device disk.old self.old m → Marked D.Device disk.new self.new.marks.items m }
        ensures device { IsErrOf result FlushFault.Device → Rose (D.faults disk.old) (D.faults disk.new) }
        ensures later { D.faults disk.old ≤ D.faults disk.new }
        ensures idle { self.old.count ≡ 0 → disk.new ≡ disk.old }
        ensures asked { IsErrOf result FlushFault.Device → self.old.count ≢ 0 }
        ensures extent { D.extent disk.new ≡ D.extent disk.old }
        ensures number { self.new.number ≡ self.old.number }
        ensures marks { self.new.marks ≡ self.old.marks }
    {
        if self.count == 0 {
            return Ok(());
        }
        write_count(&mut self.waiting, self.count);
        let Ok(batch) = Batch::of(alloc, &self.waiting) else {
            return Err(FlushFault::NoMemory);
        };
        match append(disk, &LOG, &mut self.tail, &batch) {
            Ok(()) => {}
            Err(AppendFault::Full(_, _)) => unreachable!(),
            Err(AppendFault::Device) => return Err(FlushFault::Device),
        }
        self.waiting.truncate(4);
        self.count = 0;
        Ok(())
    }

    // Notes that all commits are safe since this clock, in room that was made before.
    pub(crate) fn note(&mut self, moment: u64)
        requires { vec_len self.old.marks + 1 < vec_capacity self.old.marks }
        ensures kept { NotesOnly self.old self.new }
        ensures marks { self.new.marks.items ≡ self.old.marks.items ++ mark_of self.old.number moment ∷ [] }
    {
        let mark = Mark {
            life: 0,
            number: self.number,
            moment,
        };
        push_reserved(&mut self.marks, mark);
    }

    /// Makes all commits safe, and answers the last number. Room for the mark is made before anything changes.
    pub(crate) fn sync<D: Disk>(
        &mut self,
        alloc: Global,
        disk: &mut D,
    ) -> Result<Reply<'static>, Failed>
        requires { D.extent disk.old ≡ device_size }
        ensures answers { IfOk result (λ reply. (m : Machine) → Serves D.Device disk.old self.old m
            → ServesLine D.Device m syncs (answer_of reply) disk.new self.new) }
        // Where the device fails, what is left of the marks holds with all commits, safe or not.
        ensures marked { OnErr result ((m : Machine) → Serves D.Device disk.old self.old m
            → Marked D.Device disk.new self.new.marks.items m) }
        ensures device { OnErr result (Rose (D.faults disk.old) (D.faults disk.new)) }
        ensures later { D.faults disk.old ≤ D.faults disk.new }
        ensures asked { OnErr result (self.old.count ≢ 0) }
        ensures extent { D.extent disk.new ≡ D.extent disk.old }
    {
        // One for this mark, and one for that of the closing.
        let Ok(()) = self.marks.reserve(2) else {
            return Ok(Reply::NoMemory);
        };
        match self.flush(alloc, disk) {
            Ok(()) => {}
            Err(FlushFault::NoMemory) => return Ok(Reply::NoMemory),
            Err(FlushFault::Device) => return Err(Failed),
        }
        self.note(disk.clock());
        Ok(Reply::Ok(self.number))
    }

    /// The marks with that of the closing, which found all commits safe since this clock.
    pub(crate) fn closed_at(self, moment: u64) -> Vec<Mark>
        ensures { result.items ≡ self.marks.items ++ mark_of self.number moment ∷ [] }
    {
        let Engine {
            mut marks,
            number,
            ..
        } = self;
        let mark = Mark {
            life: 0,
            number,
            moment,
        };
        push_reserved(&mut marks, mark);
        marks
    }

    /// How a run ends early.
    pub(crate) fn ended(self, status: Status) -> Outcome
        ensures status { result.status ≡ status }
        ensures marks { result.marks ≡ self.marks }
    {
        let Engine { marks, .. } = self;
        Outcome { status, marks }
    }
}
