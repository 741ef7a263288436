//! Locks: overlaps of any lengths, commits since a snapshot, and changes that are taken back.
ghost use Rattle.std.specs.Prelude.{◌≡◌, ◌≤◌, ◌+◌, length, None, Ok};
ghost use Rattle.key_locks.specs.Locks.{writes_of};

use hse_rows::{Change, Key, Prefix, StoreId};
use key_locks::{KeyLocks, LockFault};
use std::alloc::Global;
use std::process::Abort;
use std::test::Fail;

/// What a lock of a key of a store is answered.
fn lock_key(
    locks: &mut KeyLocks,
    alloc: Global,
    txn: u64,
    snapshot: u64,
    key: &[u8],
) -> Result<Option<LockFault>, Fail>
    requires { locks.old.least ≤ snapshot }
    ensures least { locks.new.least ≡ locks.old.least }
    ensures more { result ≡ Ok None → length (writes_of locks.new txn) ≡ length (writes_of locks.old txn) + 1 }
{
    let change = Change::Del(Key::new(alloc, key)?);
    match locks.try_lock(alloc, txn, snapshot, StoreId(1), &change) {
        Ok(()) => Ok(None),
        Err(fault) => Ok(Some(fault)),
    }
}

/// What a lock of a prefix is answered.
fn lock_prefix(
    locks: &mut KeyLocks,
    alloc: Global,
    txn: u64,
    snapshot: u64,
    prefix: &[u8],
) -> Result<Option<LockFault>, Fail>
    requires { locks.old.least ≤ snapshot }
    ensures { locks.new.least ≡ locks.old.least }
{
    let change = Change::PDel(Prefix::new(alloc, prefix, 32)?);
    match locks.try_lock(alloc, txn, snapshot, StoreId(1), &change) {
        Ok(()) => Ok(None),
        Err(fault) => Ok(Some(fault)),
    }
}

#[test]
fn overlaps_of_any_lengths_are_held(rt: HostRuntime) -> Result<(), Fail> {
    let alloc = rt.alloc();
    let held = Some(LockFault::Held(1));
    let mut locks = KeyLocks::empty(alloc);
    assert_eq!(&rt; lock_prefix(&mut locks, alloc, 1, 0, b"ab")?, None);
    assert_eq!(&rt; lock_key(&mut locks, alloc, 2, 0, b"abc")?, held);
    assert_eq!(&rt; lock_prefix(&mut locks, alloc, 2, 0, b"a")?, held);
    assert_eq!(&rt; lock_prefix(&mut locks, alloc, 2, 0, b"abcd")?, held);
    assert_eq!(&rt; lock_key(&mut locks, alloc, 2, 0, b"b")?, None);
    locks.release(1);
    assert_eq!(&rt; lock_key(&mut locks, alloc, 2, 0, b"abc")?, None);
    Ok(())
}

#[test]
fn commits_since_the_snapshot_cancel(rt: HostRuntime) -> Result<(), Fail> {
    let alloc = rt.alloc();
    let mut locks = KeyLocks::empty(alloc);
    assert_eq!(&rt; lock_key(&mut locks, alloc, 1, 4, b"k")?, None);
    locks.reserve_commit(1)?;
    locks.commit(1, 5);
    assert_eq!(&rt;
        lock_key(&mut locks, alloc, 2, 4, b"k")?,
        Some(LockFault::Since(5))
    );
    assert_eq!(&rt;
        lock_prefix(&mut locks, alloc, 2, 4, b"k")?,
        Some(LockFault::Since(5))
    );
    locks.prune(5);
    assert_eq!(&rt; lock_key(&mut locks, alloc, 2, 5, b"k")?, None);
    Ok(())
}

#[test]
fn a_name_that_an_earlier_change_has_stays_locked(rt: HostRuntime) -> Result<(), Fail> {
    let alloc = rt.alloc();
    let mut locks = KeyLocks::empty(alloc);
    assert_eq!(&rt; lock_key(&mut locks, alloc, 1, 0, b"a")?, None);
    assert_eq!(&rt; lock_key(&mut locks, alloc, 1, 0, b"b")?, None);
    assert_eq!(&rt; lock_key(&mut locks, alloc, 1, 0, b"a")?, None);
    locks.undo(1, 2);
    assert_eq!(&rt;
        lock_key(&mut locks, alloc, 2, 0, b"a")?,
        Some(LockFault::Held(1))
    );
    assert_eq!(&rt; lock_key(&mut locks, alloc, 2, 0, b"b")?, None);
    Ok(())
}
