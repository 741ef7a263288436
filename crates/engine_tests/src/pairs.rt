//! Two transactions that write beside one another.

use crate::device::{engine, formed, leave};
use engine_state::WriteFault;
use hse_rows::{ChangeRef, StoreName};
use kvdb::Kvdb;
use kvset::Kvset;
use media_disk::MemDisk;
use std::alloc::Global;
use std::process::Abort;
use std::test::Fail;
use transactions::Txn;
use view::TxnState;

/// Begins a transaction.
fn begun(alloc: Global, db: &mut Kvdb<MemDisk>) -> Result<Txn<Kvset>, Fail> {
    Ok(db.begin(alloc)?)
}

/// A put of a key of the store `t` in a transaction answers this.
pub(crate) fn expect_write(
    rt: &impl Abort,
    alloc: Global,
    db: &mut Kvdb<MemDisk>,
    txn: &mut Txn<Kvset>,
    key: &[u8],
    want: Result<(), WriteFault>,
) -> Result<(), Fail> {
    let name = StoreName::new(alloc, b"t")?;
    let told = db.write(alloc, txn, &name, ChangeRef::Put(key, b"v"));
    assert!(rt; told == want);
    Ok(())
}

/// A commit answers this number.
fn expect_commit(
    rt: &impl Abort,
    alloc: Global,
    db: &mut Kvdb<MemDisk>,
    txn: &mut Txn<Kvset>,
    number: u64,
) {
    let told = db.commit(alloc, txn);
    assert!(rt; told == Ok(number));
}

/// A transaction is ended without its writes.
pub(crate) fn expect_abort(rt: &impl Abort, db: &mut Kvdb<MemDisk>, txn: &mut Txn<Kvset>) {
    let told = db.abort(txn);
    assert!(rt; told == Ok(()));
}

/// A key of the store `t` has the value now, or none.
fn expect_there(
    rt: &impl Abort,
    alloc: Global,
    db: &Kvdb<MemDisk>,
    key: &[u8],
    want: bool,
) -> Result<(), Fail> {
    let name = StoreName::new(alloc, b"t")?;
    let is_there = match db.view().get(&name, key) {
        Ok(value) => value == Some(b"v".as_slice()),
        Err(_) => !want,
    };
    assert!(rt; is_there == want);
    Ok(())
}

/// The second waits for the first, which ends without its writes.
fn abort_first(
    rt: &impl Abort,
    alloc: Global,
    db: &mut Kvdb<MemDisk>,
    first: &mut Txn<Kvset>,
    second: &mut Txn<Kvset>,
) -> Result<(), Fail> {
    expect_write(rt, alloc, db, first, b"k", Ok(()))?;
    expect_write(rt, alloc, db, second, b"k", Err(WriteFault::Held(0)))?;
    expect_abort(rt, db, first);
    expect_there(rt, alloc, db, b"k", false)?;
    expect_write(rt, alloc, db, second, b"k", Ok(()))?;
    expect_commit(rt, alloc, db, second, 3);
    expect_there(rt, alloc, db, b"k", true)
}

/// This over two transactions.
fn abort_first_of_two(rt: &impl Abort, alloc: Global, db: &mut Kvdb<MemDisk>) -> Result<(), Fail> {
    let mut first = begun(alloc, db)?;
    let mut second = begun(alloc, db)?;
    abort_first(rt, alloc, db, &mut first, &mut second)
}

#[test]
fn a_write_is_held_until_the_other_ends(rt: HostRuntime) -> Result<(), Fail> {
    let mut db = engine(rt.alloc(), &formed(&rt, rt.alloc())?)?;
    let told = abort_first_of_two(&rt, rt.alloc(), &mut db);
    leave(db);
    told
}

/// The first commits, so the second may not write there any more, but elsewhere.
fn commit_first(
    rt: &impl Abort,
    alloc: Global,
    db: &mut Kvdb<MemDisk>,
    first: &mut Txn<Kvset>,
    second: &mut Txn<Kvset>,
) -> Result<(), Fail> {
    expect_write(rt, alloc, db, first, b"k", Ok(()))?;
    expect_commit(rt, alloc, db, first, 3);
    expect_write(rt, alloc, db, second, b"k", Err(WriteFault::Since(3)))?;
    expect_write(rt, alloc, db, second, b"l", Ok(()))?;
    expect_commit(rt, alloc, db, second, 4);
    expect_there(rt, alloc, db, b"k", true)?;
    expect_there(rt, alloc, db, b"l", true)
}

/// This over two transactions.
fn commit_first_of_two(rt: &impl Abort, alloc: Global, db: &mut Kvdb<MemDisk>) -> Result<(), Fail> {
    let mut first = begun(alloc, db)?;
    let mut second = begun(alloc, db)?;
    commit_first(rt, alloc, db, &mut first, &mut second)
}

#[test]
fn a_commit_since_the_snapshot_cancels_a_write(rt: HostRuntime) -> Result<(), Fail> {
    let mut db = engine(rt.alloc(), &formed(&rt, rt.alloc())?)?;
    let told = commit_first_of_two(&rt, rt.alloc(), &mut db);
    leave(db);
    told
}

/// A transaction begins after a reopening, and commits a write.
fn commit_new(rt: &impl Abort, alloc: Global, db: &mut Kvdb<MemDisk>) -> Result<(), Fail> {
    let mut new = begun(alloc, db)?;
    expect_write(rt, alloc, db, &mut new, b"k", Ok(()))?;
    expect_commit(rt, alloc, db, &mut new, 3);
    Ok(())
}

/// A transaction of before a reopening writes nothing any more, once a commit came behind its snapshot.
fn write_in_old(rt: &impl Abort, alloc: Global, db: &mut Kvdb<MemDisk>) -> Result<(), Fail> {
    let mut old = begun(alloc, db)?;
    assert!(rt; db.reopen(alloc) == Ok(2));
    commit_new(rt, alloc, db)?;
    let aborted = Err(WriteFault::NotActive(TxnState::Aborted));
    expect_write(rt, alloc, db, &mut old, b"l", aborted)
}

#[test]
fn a_transaction_of_an_earlier_life_writes_nothing(rt: HostRuntime) -> Result<(), Fail> {
    let mut db = engine(rt.alloc(), &formed(&rt, rt.alloc())?)?;
    let told = write_in_old(&rt, rt.alloc(), &mut db);
    leave(db);
    told
}
