//! Stores that are created and dropped.
ghost use Rattle.std.specs.Prelude.{◌≡◌, IfOk, OnOk};
ghost use Rattle.kvdb.specs.declared.side.Side.TheVariants as side;

use crate::device::{engine, formed, leave};
use crate::pairs::{expect_abort, expect_write};
use engine_state::WriteFault;
use hse_rows::{ChangeRef, Mode, StoreName};
use kvdb::{Kvdb, Ran, TurnFault, TurnKind, TurnWish};
use kvset::Kvset;
use media_disk::MemDisk;
use std::alloc::Global;
use std::process::Abort;
use std::test::Fail;
use transactions::Txn;

/// The wish of a `plain` store of this name and prefix length.
pub(crate) fn creation(alloc: Global, name: &[u8], prefix: u8) -> Result<TurnWish, Fail> {
    let name = StoreName::new(alloc, name)?;
    Ok(TurnWish::Create(name, Mode::Plain, prefix))
}

/// The wish of no store of this name.
pub(crate) fn removal(alloc: Global, name: &[u8]) -> Result<TurnWish, Fail> {
    Ok(TurnWish::Drop(StoreName::new(alloc, name)?))
}

/// A turn that was taken and has run.
pub(crate) fn ran(
    alloc: Global,
    db: &mut Kvdb<MemDisk>,
    wish: &TurnWish,
) -> Result<Ran<MemDisk>, Fail>
    ensures { IfOk result (λ ran. db.new.side ≡ side.Out ran.kind ran.number) }
{
    let turn = db.take_turn(alloc, wish)?;
    Ok(turn.run())
}

/// Takes a turn, lets it run and ends it; the answer is its number.
fn done(alloc: Global, db: &mut Kvdb<MemDisk>, wish: &TurnWish) -> Result<u64, Fail> {
    let ran = ran(alloc, db, wish)?;
    Ok(db.end_turn(ran)?)
}

/// Why no such turn is taken.
fn refusal(alloc: Global, db: &mut Kvdb<MemDisk>, wish: &TurnWish) -> Result<TurnFault, Fail>
    ensures { OnOk result (db.new.side ≡ db.old.side) }
{
    match db.take_turn(alloc, wish) {
        Ok(turn) => {
            let _disk = turn.stop();
            Err("a turn was taken".into())
        }
        Err(fault) => Ok(fault),
    }
}

/// Puts a value at a key of a store.
pub(crate) fn put_in(
    alloc: Global,
    db: &mut Kvdb<MemDisk>,
    store: &[u8],
    key: &[u8],
    value: &[u8],
) -> Result<Result<u64, WriteFault>, Fail>
    ensures { db.new.side ≡ db.old.side }
{
    let name = StoreName::new(alloc, store)?;
    Ok(db.write_plain(alloc, &name, ChangeRef::Put(key, value)))
}

/// Whether a key of a store has this value.
fn has_in(
    alloc: Global,
    db: &Kvdb<MemDisk>,
    store: &[u8],
    key: &[u8],
    value: &[u8],
) -> Result<bool, Fail> {
    let name = StoreName::new(alloc, store)?;
    match db.view().get(&name, key) {
        Ok(found) => Ok(found == Some(value)),
        Err(_) => Ok(false),
    }
}

/// A turn is taken, and answers this number at its end.
pub(crate) fn expect_done(
    rt: &impl Abort,
    alloc: Global,
    db: &mut Kvdb<MemDisk>,
    wish: &TurnWish,
    number: u64,
) -> Result<(), Fail> {
    let told = done(alloc, db, wish)?;
    assert!(rt; told == number);
    Ok(())
}

/// No such turn is taken, for this.
pub(crate) fn expect_refusal(
    rt: &impl Abort,
    alloc: Global,
    db: &mut Kvdb<MemDisk>,
    wish: &TurnWish,
    want: TurnFault,
) -> Result<(), Fail> {
    let told = refusal(alloc, db, wish)?;
    assert!(rt; told == want);
    Ok(())
}

/// A put of the key `k` of a store answers this.
fn expect_put(
    rt: &impl Abort,
    alloc: Global,
    db: &mut Kvdb<MemDisk>,
    store: &[u8],
    want: Result<u64, WriteFault>,
) -> Result<(), Fail> {
    let told = put_in(alloc, db, store, b"k", b"v")?;
    assert!(rt; told == want);
    Ok(())
}

/// The key `k` of a store has its value, or not.
fn expect_there(
    rt: &impl Abort,
    alloc: Global,
    db: &Kvdb<MemDisk>,
    store: &[u8],
    want: bool,
) -> Result<(), Fail> {
    let is_there = has_in(alloc, db, store, b"k", b"v")?;
    assert!(rt; is_there == want);
    Ok(())
}

/// The engine is opened again at this number.
fn expect_reopened(rt: &impl Abort, alloc: Global, db: &mut Kvdb<MemDisk>, number: u64) {
    let told = db.reopen(alloc);
    assert!(rt; told == Ok(number));
}

/// The live stores are the store `s` and behind it the store `u`, which has prefixes of four bytes.
fn expect_listed(rt: &impl Abort, alloc: Global, db: &Kvdb<MemDisk>) -> Result<(), Fail> {
    let stores = db.stores(alloc)?;
    let [first, last] = stores.as_slice() else {
        return Err("there are other stores".into());
    };
    assert!(rt; first.name.bytes() == b"s".as_slice());
    assert!(rt; last.name.bytes() == b"u".as_slice());
    assert!(rt; last.prefix == 4);
    Ok(())
}

/// A new store takes writes, and it and they are there after a reopening; a dropped one is not.
fn create_and_drop(rt: &impl Abort, alloc: Global, db: &mut Kvdb<MemDisk>) -> Result<(), Fail> {
    expect_done(rt, alloc, db, &creation(alloc, b"u", 4)?, 3)?;
    expect_put(rt, alloc, db, b"u", Ok(4))?;
    expect_done(rt, alloc, db, &removal(alloc, b"t")?, 5)?;
    expect_reopened(rt, alloc, db, 5);
    expect_there(rt, alloc, db, b"u", true)?;
    expect_put(rt, alloc, db, b"t", Err(WriteFault::NoStore))?;
    expect_listed(rt, alloc, db)
}

#[test]
fn stores_come_and_go(rt: HostRuntime) -> Result<(), Fail> {
    let mut db = engine(rt.alloc(), &formed(&rt, rt.alloc())?)?;
    let told = create_and_drop(&rt, rt.alloc(), &mut db);
    leave(db);
    told
}

/// A store that comes again under its name holds nothing of the one before.
fn create_again(rt: &impl Abort, alloc: Global, db: &mut Kvdb<MemDisk>) -> Result<(), Fail> {
    expect_put(rt, alloc, db, b"s", Ok(3))?;
    expect_there(rt, alloc, db, b"s", true)?;
    expect_done(rt, alloc, db, &removal(alloc, b"s")?, 4)?;
    expect_done(rt, alloc, db, &creation(alloc, b"s", 0)?, 5)?;
    expect_there(rt, alloc, db, b"s", false)?;
    expect_reopened(rt, alloc, db, 5);
    expect_there(rt, alloc, db, b"s", false)
}

#[test]
fn a_store_that_comes_again_is_empty(rt: HostRuntime) -> Result<(), Fail> {
    let mut db = engine(rt.alloc(), &formed(&rt, rt.alloc())?)?;
    let told = create_again(&rt, rt.alloc(), &mut db);
    leave(db);
    told
}

/// The first of the faults is the one that is answered.
fn refuse(rt: &impl Abort, alloc: Global, db: &mut Kvdb<MemDisk>) -> Result<(), Fail> {
    expect_refusal(
        rt,
        alloc,
        db,
        &creation(alloc, b"s", 33)?,
        TurnFault::StoreExists,
    )?;
    expect_refusal(
        rt,
        alloc,
        db,
        &creation(alloc, b"u", 33)?,
        TurnFault::PrefixLength(33),
    )?;
    expect_refusal(rt, alloc, db, &removal(alloc, b"u")?, TurnFault::NoStore)?;
    expect_done(rt, alloc, db, &creation(alloc, b"u", 32)?, 3)?;
    expect_refusal(
        rt,
        alloc,
        db,
        &creation(alloc, b"w", 0)?,
        TurnFault::TooMany(3),
    )?;
    assert!(rt; db.view().number() == 3);
    Ok(())
}

#[test]
fn turns_of_stores_are_refused_in_order(rt: HostRuntime) -> Result<(), Fail> {
    let mut db = engine(rt.alloc(), &formed(&rt, rt.alloc())?)?;
    let told = refuse(&rt, rt.alloc(), &mut db);
    leave(db);
    told
}

/// A live transaction holds the store that it wrote to, until it ends.
fn hold(
    rt: &impl Abort,
    alloc: Global,
    db: &mut Kvdb<MemDisk>,
    txn: &mut Txn<Kvset>,
) -> Result<(), Fail> {
    expect_write(rt, alloc, db, txn, b"k", Ok(()))?;
    expect_refusal(
        rt,
        alloc,
        db,
        &removal(alloc, b"t")?,
        TurnFault::StoreHeld(0),
    )?;
    expect_abort(rt, db, txn);
    expect_done(rt, alloc, db, &removal(alloc, b"t")?, 3)
}

/// This with a new transaction.
fn hold_by_new(rt: &impl Abort, alloc: Global, db: &mut Kvdb<MemDisk>) -> Result<(), Fail> {
    let mut txn = db.begin(alloc)?;
    hold(rt, alloc, db, &mut txn)
}

#[test]
fn a_live_transaction_holds_its_stores(rt: HostRuntime) -> Result<(), Fail> {
    let mut db = engine(rt.alloc(), &formed(&rt, rt.alloc())?)?;
    let told = hold_by_new(&rt, rt.alloc(), &mut db);
    leave(db);
    told
}

/// A write to the store whose creation is out, and the refusal of a second turn.
fn write_and_wish(alloc: Global, db: &mut Kvdb<MemDisk>) -> Result<(u64, TurnFault), Fail>
    ensures { OnOk result (db.new.side ≡ db.old.side) }
{
    let number = put_in(alloc, db, b"u", b"k", b"v")??;
    let fault = refusal(alloc, db, &TurnWish::Sync)?;
    Ok((number, fault))
}

/// A store is there from the moment that its turn is taken.
fn write_behind(rt: &impl Abort, alloc: Global, db: &mut Kvdb<MemDisk>) -> Result<(), Fail> {
    let turn = db.take_turn(alloc, &creation(alloc, b"u", 0)?)?;
    match write_and_wish(alloc, db) {
        Err(fault) => {
            let _disk = turn.stop();
            Err(fault)
        }
        Ok((number, busy)) => {
            let ran = turn.run();
            assert_eq!(rt; db.end_turn(ran), Ok(3));
            assert_eq!(rt; number, 4);
            assert_eq!(rt; busy, TurnFault::Busy(TurnKind::Create));
            Ok(())
        }
    }
}

#[test]
fn a_store_is_there_before_its_turn_has_ended(rt: HostRuntime) -> Result<(), Fail> {
    let mut db = engine(rt.alloc(), &formed(&rt, rt.alloc())?)?;
    let told = write_behind(&rt, rt.alloc(), &mut db);
    leave(db);
    told
}
