//! Writes, snapshots and what refuses them.
use crate::device::{engine, formed, has, leave, put};
use engine_state::{BeginFault, WriteFault};
use hse_rows::{ChangeRef, Mode, StoreName};
use kvdb::Kvdb;
use media_disk::MemDisk;
use std::alloc::Global;
use std::process::Abort;
use std::test::Fail;
use view::TxnState;

/// A transaction reads the value from before it, and not one that was put since.
fn read_snapshot(rt: &impl Abort, alloc: Global, db: &mut Kvdb<MemDisk>) -> Result<(), Fail> {
    assert_eq!(rt; db.view().number(), 2);
    assert_eq!(rt; put(alloc, db, b"k", b"v")?, Ok(3));
    let mut txn = db.begin(alloc)?;
    assert_eq!(rt; put(alloc, db, b"k", b"w")?, Ok(4));
    let name = StoreName::new(alloc, b"s")?;
    assert_eq!(rt; txn.get(&name, b"k"), Ok(Some(b"v".as_slice())));
    assert!(rt; has(alloc, db, b"k", Some(b"w".as_slice()))?);
    assert_eq!(rt; db.commit(alloc, &mut txn), Ok(3));
    assert_eq!(rt; db.abort(&mut txn), Err(TxnState::Committed));
    assert_eq!(rt; db.view().number(), 4);
    Ok(())
}

#[test]
fn a_transaction_reads_its_snapshot(rt: HostRuntime) -> Result<(), Fail> {
    let mut db = engine(rt.alloc(), &formed(&rt, rt.alloc())?)?;
    let told = read_snapshot(&rt, rt.alloc(), &mut db);
    leave(db);
    told
}

/// What a write of the store of this name is refused for.
fn refused(
    alloc: Global,
    db: &mut Kvdb<MemDisk>,
    name: &[u8],
    change: ChangeRef<'_>,
) -> Result<Option<WriteFault>, Fail> {
    let name = StoreName::new(alloc, name)?;
    match db.write_plain(alloc, &name, change) {
        Ok(_) => Ok(None),
        Err(fault) => Ok(Some(fault)),
    }
}

/// The first of the faults is the one that is answered.
fn refuse(rt: &impl Abort, alloc: Global, db: &mut Kvdb<MemDisk>) -> Result<(), Fail> {
    let none = refused(alloc, db, b"u", ChangeRef::Del(b""))?;
    assert_eq!(rt; none, Some(WriteFault::NoStore));
    let mode = refused(alloc, db, b"t", ChangeRef::Del(b""))?;
    assert_eq!(rt; mode, Some(WriteFault::Mode));
    let empty = refused(alloc, db, b"s", ChangeRef::Del(b""))?;
    assert_eq!(rt; empty, Some(WriteFault::KeyLength(0)));
    let prefix = refused(alloc, db, b"s", ChangeRef::PDel(b"k"))?;
    assert_eq!(rt; prefix, Some(WriteFault::PrefixLength(1)));
    assert_eq!(rt; db.view().number(), 2);
    Ok(())
}

#[test]
fn writes_are_refused_in_order(rt: HostRuntime) -> Result<(), Fail> {
    let mut db = engine(rt.alloc(), &formed(&rt, rt.alloc())?)?;
    let told = refuse(&rt, rt.alloc(), &mut db);
    leave(db);
    told
}

/// The stores come by their names, and not as they were created.
fn list(rt: &impl Abort, alloc: Global, db: &Kvdb<MemDisk>) -> Result<(), Fail> {
    let stores = db.stores(alloc)?;
    assert_eq!(rt; stores.len(), 2);
    let (Some(first), Some(second)) = (stores.get(0), stores.get(1)) else {
        return Err("a store is missing".into());
    };
    assert_eq!(rt; first.name.bytes(), b"s".as_slice());
    assert_eq!(rt; first.mode, Mode::Plain);
    assert_eq!(rt; second.name.bytes(), b"t".as_slice());
    assert_eq!(rt; second.mode, Mode::Tx);
    Ok(())
}

#[test]
fn stores_are_listed_by_name(rt: HostRuntime) -> Result<(), Fail> {
    let db = engine(rt.alloc(), &formed(&rt, rt.alloc())?)?;
    let told = list(&rt, rt.alloc(), &db);
    leave(db);
    told
}

/// 1,024 transactions live, one more is refused, and one may begin where another has ended.
fn begin_all(rt: &impl Abort, alloc: Global, db: &mut Kvdb<MemDisk>) -> Result<(), Fail> {
    let mut live = Vec::new(alloc);
    for _ in 0..1_024 {
        live.push(db.begin(alloc)?)?;
    }
    match db.begin(alloc) {
        Ok(_) => return Err("one too many".into()),
        Err(fault) => assert_eq!(rt; fault, BeginFault::TooMany(1_024)),
    }
    let Some(mut last) = live.pop() else {
        return Err("none is live".into());
    };
    assert_eq!(rt; db.abort(&mut last), Ok(()));
    assert!(rt; db.begin(alloc).is_ok());
    Ok(())
}

#[test]
fn one_more_than_1024_transactions_is_refused(rt: HostRuntime) -> Result<(), Fail> {
    let mut db = engine(rt.alloc(), &formed(&rt, rt.alloc())?)?;
    let told = begin_all(&rt, rt.alloc(), &mut db);
    leave(db);
    told
}
