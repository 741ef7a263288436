//! A disk in memory after a crash.
ghost use Rattle.std.specs.Prelude.{◌≡◌, ◌≤◌, length, OnOk, OnErr};
ghost use Rattle.media_disk.specs.Filled.{filled};
ghost use Rattle.media_disk.specs.Record.{reach};

use crate::tear::tear_writes;
use crate::undo::{blank_pending, undo_writes};
use crate::{Call, Fill, MemDisk};
use hse_io::NoMemory;
use std::alloc::Global;
use std::collections::VecDeque;

impl MemDisk {
    ghost use Rattle.std.specs.Prelude.{◌≡◌, IfOk, OnErr};
    ghost use Rattle.media_disk.specs.Filled.{filled, HoldsByte};
    ghost use Rattle.media_disk.specs.Images.{IsImage};
    ghost use Rattle.media_disk.specs.MemDisk.{mem_bytes, mem_calls, mem_pending, IsFresh};

    /// The disk as a crash now may leave it, with the pending ranges filled in this way. Of the new disk nothing is
    /// pending, no call was made, and none is listed. Memory is refused at `Fill::Torn` alone.
    pub fn stopped(self, alloc: Global, fill: Fill) -> Result<MemDisk, NoMemory>
        ensures fresh { IfOk result
            (λ disk. IsFresh (filled fill (mem_calls self) (mem_bytes self)) disk) }
        ensures image { IfOk result
            (λ disk. IsImage (mem_bytes self) (mem_pending self) (mem_bytes disk)) }
        ensures held { IfOk result (λ disk. HoldsByte fill (mem_pending self) (mem_bytes disk)) }
        ensures err { OnErr result (fill ≡ Fill.Torn) }
    {
        let MemDisk { mut bytes, history } = self;
        let mut calls = history.calls;
        fill_pending(alloc, &mut bytes, &mut calls, fill)?;
        Ok(MemDisk::of(alloc, bytes))
    }
}

// Fills the pending ranges of a record.
fn fill_pending(
    alloc: Global,
    bytes: &mut Vec<u8>,
    calls: &mut VecDeque<Call>,
    fill: Fill,
) -> Result<(), NoMemory>
    requires { reach calls.old.items ≤ length bytes.old.items }
    ensures ok { OnOk result (bytes.new.items ≡ filled fill calls.old.items bytes.old.items) }
    ensures err { OnErr result (fill ≡ Fill.Torn) }
{
    match fill {
        Fill::New => Ok(()),
        Fill::Old => {
            undo_writes(bytes, calls);
            Ok(())
        }
        Fill::Torn => {
            tear_writes(alloc, bytes, calls)?;
            Ok(())
        }
        Fill::Byte(byte) => {
            blank_pending(bytes, calls, byte);
            Ok(())
        }
    }
}
