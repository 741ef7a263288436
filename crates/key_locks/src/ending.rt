//! The ends of transactions.
ghost use Rattle.std.specs.Prelude.{◌≡◌, ◌==◌, ◌+◌, ◌≤◌, ℕ, [], ◌++◌, ◌<◌, cond, length, map, OnOk, OnErr};
ghost use Rattle.hse_rows.specs.declared.write.Write.{Write as a_write};
ghost use Rattle.key_locks.specs.Locks.{commits_of, spare_of, writes_of};

use crate::held::{name_count, take_names};
use crate::locks::KeyLocks;
use crate::moves::{free_names, log_names};
use hse_io::NoMemory;
use std::alloc::Global;
use std::collections::{BTreeMap, VecDeque};

impl KeyLocks {
    /// No lock, and no commit. It takes no memory.
    pub fn empty(alloc: Global) -> KeyLocks
        ensures writes { (txn : ℕ) → writes_of result txn ≡ [] }
        ensures commits { commits_of result ≡ [] }
        ensures least { result.least ≡ 0 }
    {
        KeyLocks {
            table: BTreeMap::new(alloc),
            lengths: [false; 33],
            held: BTreeMap::new(alloc),
            logged: VecDeque::new(alloc),
            least: 0,
        }
    }

    /// A transaction ends without a commit: its locks are gone. It takes no memory.
    pub fn release(&mut self, txn: u64)
        ensures writes { (other : ℕ) → writes_of self.new other ≡ cond (other == txn) [] (writes_of self.old other) }
        ensures commits { commits_of self.new ≡ commits_of self.old }
        ensures least { self.new.least ≡ self.old.least }
        ensures spare { spare_of self.new ≡ spare_of self.old }
    {
        if let Some(names) = take_names(&mut self.held, txn) {
            free_names(&mut self.table, names);
        }
    }

    /// Makes room for the commit of a transaction. The room is one for all commits: what was made
    /// for two transactions is enough for the greater one, not for both. `NoMemory` comes only where
    /// there was less room than changes; locks and commits stay as they were.
    pub fn reserve_commit(&mut self, txn: u64) -> Result<(), NoMemory>
        ensures room { OnOk result (length (writes_of self.new txn) ≤ spare_of self.new) }
        ensures writes { (other : ℕ) → writes_of self.new other ≡ writes_of self.old other }
        ensures commits { commits_of self.new ≡ commits_of self.old }
        ensures least { self.new.least ≡ self.old.least }
        ensures spare { spare_of self.old ≤ spare_of self.new }
        ensures full { OnErr result (spare_of self.old < length (writes_of self.old txn)) }
    {
        let count = name_count(&self.held, txn);
        self.logged.reserve(count as usize)?;
        Ok(())
    }

    /// A transaction commits with this number. The condition is room for its changes, which
    /// `reserve_commit` makes; each change uses one place of it. It takes no memory.
    pub fn commit(&mut self, txn: u64, number: u64)
        requires { length (writes_of self.old txn) ≤ spare_of self.old }
        ensures writes { (other : ℕ) → writes_of self.new other ≡ cond (other == txn) [] (writes_of self.old other) }
        ensures commits { commits_of self.new ≡ commits_of self.old ++ map (λ (write : a_write). (number, write)) (writes_of self.old txn) }
        ensures least { self.new.least ≡ self.old.least }
        ensures spare { spare_of self.new + length (writes_of self.old txn) ≡ spare_of self.old }
    {
        if let Some(names) = take_names(&mut self.held, txn) {
            log_names(&mut self.table, &mut self.logged, names, number);
        }
    }
}
