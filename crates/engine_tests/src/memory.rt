//! Calls that are refused memory once: each says so and changes nothing, and does its work when it is called again.
//! With ample memory none is refused; `rt try --test --fail-alloc N` refuses the Nth allocation.
ghost use Rattle.std.specs.Prelude.{◌≡◌, IfOk};
ghost use Rattle.kvdb.specs.declared.side.Side.TheVariants as side;

use crate::device::{engine, formed, leave};
use crate::stores::{creation, removal};
use engine_state::{CommitFault, WriteFault};
use hse_rows::{ChangeRef, StoreName};
use kvdb::{Info, Kvdb, ReopenFault, Turn, TurnFault, TurnWish};
use kvset::Kvset;
use media_disk::MemDisk;
use recovery::OpenFault;
use std::alloc::Global;
use std::process::Abort;
use std::test::Fail;
use transactions::Txn;

/// What an engine shows: its figures, the device's clock, and whether a key of a store is there.
#[derive(Clone, Copy, Debug, PartialEq, Eq)]
struct Shown {
    info: Info,
    clock: Option<u64>,
    there: bool,
}

/// What the engine shows, with the key `k` of this store.
fn shows(db: &Kvdb<MemDisk>, name: &StoreName) -> Shown {
    let there = match db.view().get(name, b"k") {
        Ok(value) => value.is_some(),
        Err(_) => false,
    };
    Shown {
        info: db.info(),
        clock: db.clock(),
        there,
    }
}

/// Puts the key `k` of a `plain` store, at the second try where there was no memory.
fn put_again(
    rt: &impl Abort,
    alloc: Global,
    db: &mut Kvdb<MemDisk>,
    name: &StoreName,
) -> Result<u64, WriteFault> {
    let before = shows(db, name);
    match db.write_plain(alloc, name, ChangeRef::Put(b"k", b"v")) {
        Err(WriteFault::NoMemory) => {
            assert_eq!(rt; shows(db, name), before);
            db.write_plain(alloc, name, ChangeRef::Put(b"k", b"v"))
        }
        told => told,
    }
}

/// Begins a transaction, at the second try where there was no memory.
fn begin_again(
    rt: &impl Abort,
    alloc: Global,
    db: &mut Kvdb<MemDisk>,
    name: &StoreName,
) -> Result<Txn<Kvset>, Fail> {
    let before = shows(db, name);
    match db.begin(alloc) {
        Ok(txn) => Ok(txn),
        Err(_) => {
            assert_eq!(rt; shows(db, name), before);
            Ok(db.begin(alloc)?)
        }
    }
}

/// Whether a transaction has the key `k` of the store.
fn is_written(txn: &Txn<Kvset>, name: &StoreName) -> bool {
    match txn.get(name, b"k") {
        Ok(value) => value.is_some(),
        Err(_) => false,
    }
}

/// Puts the key `k` in a transaction, at the second try where there was no memory.
fn write_again(
    rt: &impl Abort,
    alloc: Global,
    db: &mut Kvdb<MemDisk>,
    txn: &mut Txn<Kvset>,
    name: &StoreName,
) -> Result<(), WriteFault> {
    let before = shows(db, name);
    match db.write(alloc, txn, name, ChangeRef::Put(b"k", b"v")) {
        Err(WriteFault::NoMemory) => {
            assert_eq!(rt; shows(db, name), before);
            assert!(rt; !is_written(txn, name));
            db.write(alloc, txn, name, ChangeRef::Put(b"k", b"v"))
        }
        told => told,
    }
}

/// Commits a transaction, at the second try where there was no memory.
fn commit_again(
    rt: &impl Abort,
    alloc: Global,
    db: &mut Kvdb<MemDisk>,
    txn: &mut Txn<Kvset>,
    name: &StoreName,
) -> Result<u64, CommitFault> {
    let before = shows(db, name);
    match db.commit(alloc, txn) {
        Err(CommitFault::NoMemory) => {
            assert_eq!(rt; shows(db, name), before);
            assert!(rt; is_written(txn, name));
            db.commit(alloc, txn)
        }
        told => told,
    }
}

/// Takes a turn, at the second try where there was no memory.
fn take_again(
    rt: &impl Abort,
    alloc: Global,
    db: &mut Kvdb<MemDisk>,
    wish: &TurnWish,
    name: &StoreName,
) -> Result<Turn<MemDisk>, TurnFault>
    ensures { IfOk result (λ turn. db.new.side ≡ side.Out turn.kind turn.number) }
{
    let before = shows(db, name);
    match db.take_turn(alloc, wish) {
        Ok(turn) => Ok(turn),
        Err(_) => {
            assert_eq!(rt; shows(db, name), before);
            db.take_turn(alloc, wish)
        }
    }
}

/// Takes a turn so, lets it run and ends it.
fn done_again(
    rt: &impl Abort,
    alloc: Global,
    db: &mut Kvdb<MemDisk>,
    wish: &TurnWish,
    name: &StoreName,
) -> Result<u64, Fail> {
    let turn = take_again(rt, alloc, db, wish, name)?;
    Ok(db.end_turn(turn.run())?)
}

/// Opens the engine again, at the second try where there was no memory.
fn reopen_again(
    rt: &impl Abort,
    alloc: Global,
    db: &mut Kvdb<MemDisk>,
    name: &StoreName,
) -> Result<u64, ReopenFault> {
    let before = shows(db, name);
    match db.reopen(alloc) {
        Err(ReopenFault::Open(OpenFault::NoMemory)) => {
            let after = shows(db, name);
            assert_eq!(rt; after.info, before.info);
            assert_eq!(rt; after.there, before.there);
            db.reopen(alloc)
        }
        told => told,
    }
}

/// A put, a transaction and its commit.
fn change(
    rt: &impl Abort,
    alloc: Global,
    db: &mut Kvdb<MemDisk>,
    tx: &StoreName,
    plain: &StoreName,
) -> Result<(), Fail> {
    assert_eq!(rt; put_again(rt, alloc, db, plain), Ok(3));
    let mut txn = begin_again(rt, alloc, db, tx)?;
    assert_eq!(rt; write_again(rt, alloc, db, &mut txn, tx), Ok(()));
    assert_eq!(rt; commit_again(rt, alloc, db, &mut txn, tx), Ok(4));
    assert!(rt; shows(db, tx).there);
    Ok(())
}

/// A sync, a creation, a drop and a reopening.
fn turn(
    rt: &impl Abort,
    alloc: Global,
    db: &mut Kvdb<MemDisk>,
    tx: &StoreName,
) -> Result<(), Fail> {
    let create = creation(alloc, b"u", 0)?;
    let remove = removal(alloc, b"u")?;
    assert_eq!(rt; done_again(rt, alloc, db, &TurnWish::Sync, tx)?, 4);
    assert_eq!(rt; done_again(rt, alloc, db, &create, tx)?, 5);
    assert_eq!(rt; done_again(rt, alloc, db, &remove, tx)?, 6);
    assert_eq!(rt; reopen_again(rt, alloc, db, tx), Ok(6));
    assert!(rt; shows(db, tx).there);
    Ok(())
}

/// All of this over a new device.
fn work(rt: &impl Abort, alloc: Global) -> Result<(), Fail> {
    let tx = StoreName::new(alloc, b"t")?;
    let plain = StoreName::new(alloc, b"s")?;
    let mut db = engine(alloc, &formed(rt, alloc)?)?;
    let told = match change(rt, alloc, &mut db, &tx, &plain) {
        Ok(()) => turn(rt, alloc, &mut db, &tx),
        Err(fault) => Err(fault),
    };
    leave(db);
    told
}

#[test]
fn calls_without_memory_change_nothing(rt: HostRuntime) -> Result<(), Fail> {
    work(&rt, rt.alloc())
}
