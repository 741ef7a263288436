//! A device in memory.
ghost use Rattle.std.specs.Prelude.{◌≤◌, length};
ghost use Rattle.media_disk.specs.Record.{reach};

use crate::Call;
use crate::history::History;
use std::alloc::Global;
use std::collections::VecDeque;

/// A device in memory that tells its content.
///
/// It keeps a record of its calls: the pending ranges and all that a crash might have left follow from it. Calls can
/// be listed to fail; each such failure raises `listed`. The record and the device take memory: a call that finds none
/// fails, changes nothing and raises `refused`, beside `listed` where it is listed. A write that fails reads as
/// before, and where the record holds it, its range is pending.
#[derive(Drop)]
pub struct MemDisk {
    pub(crate) bytes: Vec<u8>,
    pub(crate) history: History,
    ghost within: { reach history.calls.items ≤ length bytes.items },
}

impl MemDisk {
    ghost use Rattle.std.specs.Prelude.{◌≡◌, []};
    ghost use Rattle.media_disk.specs.Lists.{Lists};
    ghost use Rattle.media_disk.specs.MemDisk.{mem_bytes, mem_calls, mem_lists, mem_listed, mem_refused, IsFresh, ListsOnly};

    /// A device of size 0. No call was made, and none is listed.
    pub fn new(alloc: Global) -> MemDisk
        ensures { IsFresh [] result }
    {
        MemDisk::of(alloc, Vec::new(alloc))
    }

    /// A device that holds these bytes. Nothing is pending, no call was made, and none is listed.
    pub fn of(alloc: Global, bytes: Vec<u8>) -> MemDisk
        ensures { IsFresh bytes.items result }
    {
        MemDisk {
            bytes,
            history: History::new(alloc),
        }
    }

    /// What a read gives.
    pub fn bytes(&self) -> &[u8]
        ensures { result.now ≡ mem_bytes self.now }
    {
        &self.bytes
    }

    /// Its calls, the newest first.
    pub fn calls(&self) -> &VecDeque<Call>
        ensures { result.now.items ≡ mem_calls self.now }
    {
        &self.history.calls
    }

    /// How many calls failed because they were listed, or came at the clock's last value.
    pub fn listed(&self) -> u64
        ensures { result ≡ mem_listed self.now }
    {
        self.history.listed
    }

    /// How many calls failed that the record does not hold: it found no memory for them, or the clock was at its
    /// last value.
    pub fn refused(&self) -> u64
        ensures { result ≡ mem_refused self.now }
    {
        self.history.refused
    }

    /// The calls at these clocks fail, in place of those that an earlier list named. A disk's first call is at
    /// clock 0.
    pub fn fail_at(&mut self, calls: Vec<u64>)
        ensures { ListsOnly self.old self.new
            (record (mem_lists self.old) { calls = calls.items }) }
    {
        self.history.lists.set_calls(calls);
    }

    /// This one of the writes from now on fails, counted from 1, in place of one named earlier; at 0 none does.
    pub fn fail_write(&mut self, write: u64)
        ensures { ListsOnly self.old self.new (record (mem_lists self.old) { write = write }) }
    {
        self.history.lists.set_write(write);
    }

    /// All calls from this clock on fail, in place of an earlier clock.
    pub fn fail_from(&mut self, call: u64)
        ensures { ListsOnly self.old self.new (record (mem_lists self.old) { from = call }) }
    {
        self.history.lists.set_from(call);
    }
}
