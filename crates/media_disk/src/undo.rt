//! The writes of a record undone.
ghost use Rattle.std.specs.Prelude.{◌≡◌, ◌≤◌, length};
ghost use Rattle.media_disk.specs.Filled.{old_of, byte_of};
ghost use Rattle.media_disk.specs.Record.{pending_of, reach};

use crate::overwrite::{blank, overwrite};
use crate::{Call, Work};
use std::collections::VecDeque;

/// Puts back what all writes since the last sync that succeeded wrote over.
pub fn undo_writes(bytes: &mut Vec<u8>, calls: &mut VecDeque<Call>)
    requires { reach calls.old.items ≤ length bytes.old.items }
    ensures { bytes.new.items ≡ old_of calls.old.items bytes.old.items }
{
    while let Some(call) = calls.pop_front() {
        match call.work {
            Work::Write(at, old) => overwrite(bytes, at as usize, &old),
            Work::Sync if !call.failed => return,
            _ => {}
        }
    }
}

/// Puts one byte all over the pending ranges.
pub fn blank_pending(bytes: &mut Vec<u8>, calls: &mut VecDeque<Call>, byte: u8)
    requires { reach calls.old.items ≤ length bytes.old.items }
    ensures { bytes.new.items ≡ byte_of byte (pending_of calls.old.items) bytes.old.items }
{
    while let Some(call) = calls.pop_front() {
        match call.work {
            Work::Write(at, old) => blank(bytes, at as usize, old.len(), byte),
            Work::FailedWrite(at, len) => blank(bytes, at as usize, len as usize, byte),
            Work::SetSize(size) if !call.failed => blank(bytes, 0, size as usize, byte),
            Work::Sync if !call.failed => return,
            _ => {}
        }
    }
}
