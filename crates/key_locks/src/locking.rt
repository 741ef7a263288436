//! The lock of a write.
ghost use Rattle.std.specs.Prelude.{◌≡◌, ◌==◌, ◌<◌, ◌≤◌, ◌++◌, ◌∷◌, ℕ, [], cond, false, length, Some, IfOk, OnOk, OnErr};
ghost use Rattle.std.specs.Ordering.{is_eq};
ghost use Rattle.key_locks.specs.declared.name.Name.{Name as a_name};
ghost use Rattle.hse_rows.specs.writes.Change.{write_of};
ghost use Rattle.hse_rows.specs.writes.Lengths.{IsPrefixLength};
ghost use Rattle.key_locks.specs.Answers.{IsAnswer};
ghost use Rattle.key_locks.specs.Held.{held_by};
ghost use Rattle.key_locks.specs.Locks.{commits_of, locked, spare_of, writes_of};
ghost use Rattle.key_locks.specs.Names.{name_cmp, name_of, write_at};
ghost use Rattle.key_locks.specs.Seen.{IsUsed};
ghost use Rattle.key_locks.specs.Table.{lock_at};

use crate::held::{pop_name, push_name};
use crate::lock::Lock;
use crate::lock_fault::LockFault;
use crate::locks::KeyLocks;
use crate::logged::first_since;
use crate::name::Name;
use crate::names::Names;
use crate::search::{key_of, seen_of};
use crate::table::lock_name;
use hse_io::NoMemory;
use hse_rows::{Change, StoreId};
use std::alloc::Global;
use std::collections::BTreeMap;

/// The name that a change of a store locks.
fn name_of(alloc: Global, store: StoreId, change: &Change) -> Result<Name, NoMemory>
    ensures name { IfOk result (λ name. name ≡ name_of store change.now) }
    ensures within { IfOk result (λ name. name.is_key ≡ false
        → IsPrefixLength (length name.bytes)) }
{
    match change {
        Change::Put(key, _) => Ok(Name {
            store: store.0,
            bytes: key.share(alloc)?,
            is_key: true,
        }),
        Change::Del(key) => Ok(Name {
            store: store.0,
            bytes: key.share(alloc)?,
            is_key: true,
        }),
        Change::PDel(prefix) => Ok(Name {
            store: store.0,
            bytes: key_of(alloc, prefix.bytes())?,
            is_key: false,
        }),
    }
}

impl Name {
    /// One more owner of the same name.
    fn share(&self, alloc: Global) -> Result<Name, NoMemory>
        ensures { IfOk result (λ name. name ≡ self.now) }
    {
        Ok(Name {
            store: self.store,
            bytes: self.bytes.share(alloc)?,
            is_key: self.is_key,
        })
    }
}

/// A transaction takes a name.
fn add_name(
    alloc: Global,
    table: &mut BTreeMap<Name, Lock>,
    held: &mut BTreeMap<u64, Names>,
    txn: u64,
    name: Name,
) -> Result<(), NoMemory>
    ensures newest { (q : a_name) → (lock_at table.new q).newest ≡ (lock_at table.old q).newest }
    ensures holder { OnOk result ((q : a_name) → (lock_at table.new q).holder ≡ cond (is_eq (name_cmp name q)) (Some txn) (lock_at table.old q).holder) }
    ensures held { OnOk result ((q : ℕ) → held_by held.new q ≡ cond (q == txn) (held_by held.old q ++ name ∷ []) (held_by held.old q)) }
    ensures same { OnErr result ((q : a_name) → (lock_at table.new q).holder ≡ (lock_at table.old q).holder) }
    ensures same_held { OnErr result ((q : ℕ) → held_by held.new q ≡ held_by held.old q) }
{
    let copy = name.share(alloc)?;
    push_name(alloc, held, txn, copy)?;
    match lock_name(table, name, txn) {
        Ok(()) => Ok(()),
        Err(_) => {
            let _copy = pop_name(held, txn);
            Err(NoMemory)
        }
    }
}

/// The length of a prefix is in use.
fn use_length(lengths: &mut [bool; 33], name: &Name)
    requires { name.now.is_key ≡ false → IsPrefixLength (length name.now.bytes) }
    ensures used { name.now.is_key ≡ false → IsUsed lengths.new (length name.now.bytes) }
    ensures others { (n : ℕ) → IsUsed lengths.old n → IsUsed lengths.new n }
{
    if !name.is_key {
        lengths[name.bytes.bytes().len()] = true;
    }
}

impl KeyLocks {
    /// Whether nothing cancels a write of a name.
    fn check(&self, alloc: Global, txn: u64, snapshot: u64, name: &Name) -> Result<(), LockFault>
        requires { self.now.least ≤ snapshot }
        ensures { IsAnswer self.now txn snapshot (write_at name.now) result }
    {
        let Ok(seen) = seen_of(alloc, &self.table, &self.lengths, name, txn) else {
            return Err(LockFault::NoMemory);
        };
        if let Some(holder) = seen.holder {
            return Err(LockFault::Held(holder));
        }
        if seen.newest <= snapshot {
            return Ok(());
        }
        match first_since(&self.logged, snapshot, name) {
            Some(number) => Err(LockFault::Since(number)),
            None => Ok(()),
        }
    }

    /// Takes the lock of a change for a transaction, whose number rises with its begin. `Held` comes
    /// exactly where other transactions have a write that overlaps, with the least number, the first
    /// begun; `Since` exactly where none has, and commits after the snapshot wrote what overlaps,
    /// with the least number. `NoMemory` comes only for want of memory. A fault changes nothing. The
    /// condition is that the snapshot is at least the greatest number pruned to.
    pub fn try_lock(
        &mut self,
        alloc: Global,
        txn: u64,
        snapshot: u64,
        store: StoreId,
        change: &Change,
    ) -> Result<(), LockFault>
        requires { self.old.least ≤ snapshot }
        ensures answer { IsAnswer self.old txn snapshot (write_of store change.now) result }
        ensures writes { OnOk result ((other : ℕ) → writes_of self.new other
            ≡ cond (other == txn) (writes_of self.old other ++ locked store change.now ∷ []) (writes_of self.old other)) }
        ensures same { OnErr result ((other : ℕ) → writes_of self.new other ≡ writes_of self.old other) }
        ensures commits { commits_of self.new ≡ commits_of self.old }
        ensures least { self.new.least ≡ self.old.least }
        ensures spare { spare_of self.new ≡ spare_of self.old }
    {
        let Ok(name) = name_of(alloc, store, change) else {
            return Err(LockFault::NoMemory);
        };
        self.check(alloc, txn, snapshot, &name)?;
        use_length(&mut self.lengths, &name);
        let Ok(()) = add_name(alloc, &mut self.table, &mut self.held, txn, name) else {
            return Err(LockFault::NoMemory);
        };
        Ok(())
    }
}
