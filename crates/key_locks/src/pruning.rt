//! Commits that are forgotten, and changes that are taken back.
ghost use Rattle.std.specs.Prelude.{◌≡◌, ◌==◌, ◌-◌, ◌+◌, ◌<◌, ◌≤◌, ℕ, cond, length, max, nat_le, take};
ghost use Rattle.hse_rows.specs.declared.write.Write.{Write as a_write};
ghost use Rattle.key_locks.specs.Locks.{commits_of, spare_of, writes_of};
ghost use Rattle.key_locks.specs.Logged.{without_old};
ghost use Rattle.key_locks.specs.Since.{has_commit};

use crate::locks::KeyLocks;
use crate::moves::{forget, undo_names};

impl KeyLocks {
    /// Whether a snapshot is at least the greatest number pruned to, so that no commit after it was
    /// forgotten: what `try_lock` asks of a snapshot. It takes no memory.
    pub fn remembers(&self, snapshot: u64) -> bool
        ensures { result ≡ nat_le self.now.least snapshot }
    {
        self.least <= snapshot
    }

    /// Forgets the first commits up to a number. Where their numbers rise these are all up to it.
    /// Later snapshots are at least this number. It takes no memory.
    pub fn prune(&mut self, least: u64)
        ensures commits { commits_of self.new ≡ without_old (λ (commit : ℕ × a_write). commit.0) least (commits_of self.old) }
        ensures least { self.new.least ≡ max self.old.least least }
        ensures writes { (other : ℕ) → writes_of self.new other ≡ writes_of self.old other }
        ensures kept { (write : a_write) (number : ℕ) → max self.old.least least < number
            → has_commit write number (commits_of self.new) ≡ has_commit write number (commits_of self.old) }
        ensures spare { spare_of self.new + length (commits_of self.new) ≡ spare_of self.old + length (commits_of self.old) }
    {
        forget(&mut self.table, &mut self.logged, least);
        self.least = self.least.max(least);
    }

    /// Takes back the last `count` changes that a transaction locked; the condition is that there
    /// are so many. A name that an earlier change of it has stays locked. It takes no memory.
    pub fn undo(&mut self, txn: u64, count: u64)
        requires { count ≤ length (writes_of self.old txn) }
        ensures writes { (other : ℕ) → writes_of self.new other
            ≡ cond (other == txn) (take (length (writes_of self.old other) - count) (writes_of self.old other)) (writes_of self.old other) }
        ensures commits { commits_of self.new ≡ commits_of self.old }
        ensures least { self.new.least ≡ self.old.least }
        ensures spare { spare_of self.new ≡ spare_of self.old }
    {
        undo_names(&mut self.table, &mut self.held, txn, count);
    }
}
