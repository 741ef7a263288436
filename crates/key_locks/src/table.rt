//! The locks of names.
ghost use Rattle.std.specs.Prelude.{◌≡◌, ◌<◌, ◌≤◌, cond, max, OnOk, OnErr, Some, None, IsSome, ◌⊎◌};
ghost use Rattle.std.specs.BTreeMap.{get};
ghost use Rattle.key_locks.specs.declared.name.Name.{Name as a_name};
ghost use Rattle.std.specs.Ordering.{is_eq};
ghost use Rattle.key_locks.specs.Names.{name_cmp};
ghost use Rattle.key_locks.specs.Table.{lock_at, no_lock};

use crate::lock::Lock;
use crate::name::Name;
use hse_io::NoMemory;
use std::collections::BTreeMap;

/// The lock of a name; an unlocked one where the table has none.
pub(crate) fn lock_of(table: &BTreeMap<Name, Lock>, name: &Name) -> Lock
    ensures { result ≡ lock_at table.now name.now }
{
    table.get(name).copied().unwrap_or(Lock {
        holder: None,
        newest: 0,
    })
}

/// A transaction takes a name.
pub(crate) fn lock_name(
    table: &mut BTreeMap<Name, Lock>,
    name: Name,
    txn: u64,
) -> Result<(), NoMemory>
    ensures newest { (q : a_name) → (lock_at table.new q).newest ≡ (lock_at table.old q).newest }
    ensures holder { OnOk result ((q : a_name) → (lock_at table.new q).holder ≡ cond (is_eq (name_cmp name q)) (Some txn) (lock_at table.old q).holder) }
    ensures same { OnErr result ((q : a_name) → lock_at table.new q ≡ lock_at table.old q) }
{
    let lock = Lock {
        holder: Some(txn),
        newest: lock_of(table, &name).newest,
    };
    table.insert(name, lock)?;
    Ok(())
}

/// Puts a lock, and drops one that has neither holder nor commit.
pub(crate) fn put_lock(table: &mut BTreeMap<Name, Lock>, name: &Name, lock: Lock)
    requires { IsSome (get name_cmp table.old name.now) ⊎ (lock_at table.old name.now ≡ no_lock → lock ≡ no_lock) }
    ensures { (q : a_name) → lock_at table.new q ≡ cond (is_eq (name_cmp name.now q)) lock (lock_at table.old q) }
{
    if lock.holder.is_none() && lock.newest == 0 {
        table.remove(name);
        return;
    }
    if let Some(old) = table.get_mut(name) {
        *old = lock;
    }
}

/// A name is let go.
pub(crate) fn free_name(table: &mut BTreeMap<Name, Lock>, name: &Name)
    ensures newest { (q : a_name) → (lock_at table.new q).newest ≡ (lock_at table.old q).newest }
    ensures holder { (q : a_name) → (lock_at table.new q).holder ≡ cond (is_eq (name_cmp name.now q)) None (lock_at table.old q).holder }
{
    let lock = lock_of(table, name);
    put_lock(
        table,
        name,
        Lock {
            holder: None,
            newest: lock.newest,
        },
    );
}

/// A name is let go, and a commit with this number wrote it.
pub(crate) fn log_name(table: &mut BTreeMap<Name, Lock>, name: &Name, number: u64)
    requires { lock_at table.old name.now ≡ no_lock → number ≡ 0 }
    ensures newest { (q : a_name) → (lock_at table.new q).newest ≡ cond (is_eq (name_cmp name.now q)) (max (lock_at table.old q).newest number) (lock_at table.old q).newest }
    ensures holder { (q : a_name) → (lock_at table.new q).holder ≡ cond (is_eq (name_cmp name.now q)) None (lock_at table.old q).holder }
{
    let lock = lock_of(table, name);
    put_lock(
        table,
        name,
        Lock {
            holder: None,
            newest: lock.newest.max(number),
        },
    );
}

/// A name forgets the commits up to a number, unless it has a later one.
pub(crate) fn unlog_name(table: &mut BTreeMap<Name, Lock>, name: &Name, least: u64)
    ensures newest { (q : a_name) → least < (lock_at table.old q).newest → (lock_at table.new q).newest ≡ (lock_at table.old q).newest }
    ensures below { (q : a_name) → (lock_at table.new q).newest ≤ (lock_at table.old q).newest }
    ensures holder { (q : a_name) → (lock_at table.new q).holder ≡ (lock_at table.old q).holder }
{
    let lock = lock_of(table, name);
    if lock.newest <= least {
        put_lock(
            table,
            name,
            Lock {
                holder: lock.holder,
                newest: 0,
            },
        );
    }
}
