//! The writes of a record half done.
ghost use Rattle.std.specs.Prelude.{◌≡◌, ◌+◌, ◌/◌, ◌≤◌, [], length, OnOk, IfOk};
ghost use Rattle.media_disk.specs.Content.{part, put_at};
ghost use Rattle.media_disk.specs.Filled.{torn_of};
ghost use Rattle.media_disk.specs.Halves.{put_all, AllFit};
ghost use Rattle.media_disk.specs.Record.{reach};

use crate::overwrite::overwrite;
use crate::{Call, Work};
use std::alloc::{AllocError, Global};
use std::collections::VecDeque;

/// The first half of what a write left, and its offset.
#[derive(Drop)]
pub struct Half {
    pub at: u64,
    pub bytes: Vec<u8>,
}

/// Undoes all writes since the last sync that succeeded, and does the first half of each again.
pub fn tear_writes(
    alloc: Global,
    bytes: &mut Vec<u8>,
    calls: &mut VecDeque<Call>,
) -> Result<(), AllocError>
    requires { reach calls.old.items ≤ length bytes.old.items }
    ensures { OnOk result (bytes.new.items ≡ torn_of calls.old.items bytes.old.items) }
{
    let mut halves = Vec::new(alloc);
    undo_halves(alloc, bytes, calls, &mut halves)?;
    put_halves(bytes, halves);
    Ok(())
}

// Undoes the writes, and keeps the first half of each.
fn undo_halves(
    alloc: Global,
    bytes: &mut Vec<u8>,
    calls: &mut VecDeque<Call>,
    halves: &mut Vec<Half>,
) -> Result<(), AllocError>
    requires within { reach calls.old.items ≤ length bytes.old.items }
    requires none { halves.old.items ≡ [] }
    ensures halves { OnOk result (put_all halves.new.items bytes.new.items
        ≡ torn_of calls.old.items bytes.old.items) }
    ensures fit { OnOk result (AllFit (length bytes.new.items) halves.new.items) }
{
    while let Some(call) = calls.pop_front() {
        match call.work {
            Work::Write(at, old) => {
                let half = take_half(alloc, bytes, at, &old)?;
                halves.push(half)?;
            }
            Work::Sync if !call.failed => return Ok(()),
            _ => {}
        }
    }
    Ok(())
}

// Puts a write's old bytes back, and gives the first half of what it left.
fn take_half(alloc: Global, bytes: &mut Vec<u8>, at: u64, old: &[u8]) -> Result<Half, AllocError>
    requires { at + length old.now ≤ length bytes.old.items }
    ensures at { IfOk result (λ half. half.at ≡ at) }
    ensures half { IfOk result (λ half. half.bytes.items
        ≡ part bytes.old.items at (length old.now / 2)) }
    ensures undone { OnOk result (bytes.new.items ≡ put_at bytes.old.items at old.now) }
{
    let from = at as usize;
    let half = bytes[from..from + old.len() / 2].to_vec(alloc)?;
    overwrite(bytes, from, old);
    Ok(Half { at, bytes: half })
}

// Does the halves, the last one first.
fn put_halves(bytes: &mut Vec<u8>, halves: Vec<Half>)
    requires { AllFit (length bytes.old.items) halves.items }
    ensures { bytes.new.items ≡ put_all halves.items bytes.old.items }
{
    let mut rest = halves;
    while let Some(half) = rest.pop() {
        overwrite(bytes, half.at as usize, &half.bytes);
    }
}
