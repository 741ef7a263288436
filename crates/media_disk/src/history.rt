//! The calls that a disk in memory has had, and the lists of those that are to fail.
ghost use Rattle.std.specs.Prelude.{◌≤◌};
ghost use Rattle.media_disk.specs.Record.{clock_after};

use crate::fault_list::FaultList;
use crate::{Call, Failed, Work};
use std::alloc::Global;
use std::collections::VecDeque;

/// The record of a disk in memory: its calls, the newest first, their clock, and how many of them failed.
#[derive(Drop)]
pub struct History {
    pub calls: VecDeque<Call>,
    pub clock: u64,
    pub lists: FaultList,
    /// How many calls failed because they were listed.
    pub listed: u64,
    /// How many calls failed that the record does not hold.
    pub refused: u64,
    ghost later: { clock_after calls.items ≤ clock },
}

impl History {
    ghost use Rattle.std.specs.Prelude.{◌≡◌, ◌+◌, ◌-◌, ◌^◌, ◌≤◌, [], true, IsErr};
    ghost use Rattle.hse_io.specs.Faults.{HasCause, next_count};
    ghost use Rattle.media_disk.specs.Entered.{Entered, Unentered, IsWriteCounted};
    ghost use Rattle.media_disk.specs.Lists.{no_lists, fails, fails_write};

    /// No call has been made, and none is listed.
    pub fn new(alloc: Global) -> History
        ensures calls { result.calls.items ≡ [] }
        ensures clock { result.clock ≡ 0 }
        ensures lists { result.lists ≡ no_lists }
        ensures listed { result.listed ≡ 0 }
        ensures refused { result.refused ≡ 0 }
    {
        History {
            calls: VecDeque::new(alloc),
            clock: 0,
            lists: FaultList::new(alloc),
            listed: 0,
            refused: 0,
        }
    }

    /// Whether the next call is listed, unless it is a write.
    pub fn is_listed(&self) -> bool
        ensures listed { result ≡ fails self.now.lists self.now.clock }
        ensures last { self.now.clock ≡ 2 ^ 64 - 1 → result ≡ true }
    {
        self.lists.fails(self.clock)
    }

    /// Whether the next call, a write, is listed. It counts as one of the next writes.
    pub fn is_listed_write(&mut self) -> bool
        ensures listed { result ≡ fails_write self.old.lists self.old.clock }
        ensures last { self.old.clock ≡ 2 ^ 64 - 1 → result ≡ true }
        ensures counted { IsWriteCounted self.old self.new }
    {
        self.lists.fails_write(self.clock)
    }

    /// Counts a call and puts it into the record. A listed call fails, and so does one whose record finds no memory.
    pub fn enter(&mut self, work: Work, listed: bool) -> Result<(), Failed>
        requires { self.old.clock ≡ 2 ^ 64 - 1 → listed ≡ true }
        ensures entered { Entered self.old self.new work listed result }
        ensures lists { self.new.lists ≡ self.old.lists }
    {
        let clock = self.clock;
        if clock == u64::MAX {
            return self.refuse(listed);
        }
        let call = Call {
            clock,
            work,
            failed: listed,
        };
        if let Err(_) = self.calls.push_front(call) {
            return self.refuse(listed);
        }
        self.clock = clock + 1;
        if listed {
            self.listed = self.listed.saturating_add(1);
            return Err(Failed);
        }
        Ok(())
    }

    /// Counts a call that fails and is not put into the record.
    pub fn refuse(&mut self, listed: bool) -> Result<(), Failed>
        ensures failed { IsErr result }
        ensures unentered { Unentered self.old self.new listed }
        ensures clock { self.new.clock ≡ next_count self.old.clock }
        ensures forward { self.old.clock ≤ self.new.clock }
        ensures cause { HasCause (self.old.listed + self.old.refused)
            (self.new.listed + self.new.refused) result }
        ensures lists { self.new.lists ≡ self.old.lists }
    {
        self.clock = self.clock.saturating_add(1);
        self.refused = self.refused.saturating_add(1);
        if listed {
            self.listed = self.listed.saturating_add(1);
        }
        Err(Failed)
    }
}
