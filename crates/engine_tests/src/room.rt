//! What has no room is refused with its numbers. Out of memory may be answered in place of any fault, so that no contract
//! asks for these answers.
use crate::device::{engine, engine_of, formed_of, leave, put};
use crate::pairs::expect_abort;
use crate::stores::{creation, expect_done, expect_refusal};
use device_layout::Params;
use engine_state::{CommitFault, WriteFault};
use hse_rows::{ChangeRef, Mode, StoreName};
use kvdb::{Kvdb, TurnFault, TurnWish};
use kvset::Kvset;
use media_disk::MemDisk;
use recovery::format;
use std::alloc::Global;
use std::process::Abort;
use std::test::Fail;
use transactions::Txn;

/// Segments of 262,144 bytes: their commits may take 262,080.
const PARAMS: Params = Params {
    power: 16,
    slots: 4,
    manifest: 65_536,
    log: 262_144,
    stores: 3,
};

/// A value of 60,000 bytes: a commit of it alone at a key of one byte takes 12 + 15 + 1 + 60,000 + 32 = 60,060.
fn long_value(alloc: Global) -> Result<Vec<u8>, Fail> {
    Ok(vec![in alloc; 0x76; 60_000]?)
}

/// A put of a value at a key of the store `s` answers this.
fn expect_put(
    rt: &impl Abort,
    alloc: Global,
    db: &mut Kvdb<MemDisk>,
    key: &[u8],
    value: &[u8],
    want: Result<u64, WriteFault>,
) -> Result<(), Fail> {
    let told = put(alloc, db, key, value)?;
    assert!(rt; told == want);
    Ok(())
}

/// A put of a value at a key of the store `t` in a transaction answers this.
fn expect_write(
    rt: &impl Abort,
    alloc: Global,
    db: &mut Kvdb<MemDisk>,
    txn: &mut Txn<Kvset>,
    key: &[u8],
    value: &[u8],
    want: Result<(), WriteFault>,
) -> Result<(), Fail> {
    let name = StoreName::new(alloc, b"t")?;
    let told = db.write(alloc, txn, &name, ChangeRef::Put(key, value));
    assert!(rt; told == want);
    Ok(())
}

/// A commit answers this.
fn expect_commit(
    rt: &impl Abort,
    alloc: Global,
    db: &mut Kvdb<MemDisk>,
    txn: &mut Txn<Kvset>,
    want: Result<u64, CommitFault>,
) {
    let told = db.commit(alloc, txn);
    assert!(rt; told == want);
}

/// Four puts of a long value, which leave a segment 262,080 - 4 * 60,060 = 21,840 bytes.
fn put_four(
    rt: &impl Abort,
    alloc: Global,
    db: &mut Kvdb<MemDisk>,
    value: &[u8],
) -> Result<(), Fail> {
    expect_put(rt, alloc, db, b"a", value, Ok(3))?;
    expect_put(rt, alloc, db, b"b", value, Ok(4))?;
    expect_put(rt, alloc, db, b"c", value, Ok(5))?;
    expect_put(rt, alloc, db, b"d", value, Ok(6))
}

/// A fifth put has no room, but a short one has.
fn put_five(
    rt: &impl Abort,
    alloc: Global,
    db: &mut Kvdb<MemDisk>,
    value: &[u8],
) -> Result<(), Fail> {
    let full = Err(WriteFault::LogFull(60_060, 21_840));
    put_four(rt, alloc, db, value)?;
    expect_put(rt, alloc, db, b"e", value, full)?;
    expect_put(rt, alloc, db, b"e", b"v", Ok(7))
}

#[test]
fn a_put_without_room_in_the_segment_is_refused(rt: HostRuntime) -> Result<(), Fail> {
    let value = long_value(rt.alloc())?;
    let mut db = engine(rt.alloc(), &formed_of(&rt, rt.alloc(), &PARAMS)?)?;
    let told = put_five(&rt, rt.alloc(), &mut db, &value);
    leave(db);
    told
}

/// Four writes of a long value.
fn write_four(
    rt: &impl Abort,
    alloc: Global,
    db: &mut Kvdb<MemDisk>,
    txn: &mut Txn<Kvset>,
    value: &[u8],
) -> Result<(), Fail> {
    expect_write(rt, alloc, db, txn, b"a", value, Ok(()))?;
    expect_write(rt, alloc, db, txn, b"b", value, Ok(()))?;
    expect_write(rt, alloc, db, txn, b"c", value, Ok(()))?;
    expect_write(rt, alloc, db, txn, b"d", value, Ok(()))
}

/// A fifth would make a commit of 12 + 5 * (15 + 1 + 60,000) + 32 = 300,124 bytes; the four commit.
fn write_five(
    rt: &impl Abort,
    alloc: Global,
    db: &mut Kvdb<MemDisk>,
    txn: &mut Txn<Kvset>,
    value: &[u8],
) -> Result<(), Fail> {
    let large = Err(WriteFault::TxnSize(300_124, 262_080));
    write_four(rt, alloc, db, txn, value)?;
    expect_write(rt, alloc, db, txn, b"e", value, large)?;
    expect_commit(rt, alloc, db, txn, Ok(3));
    Ok(())
}

/// This in a new transaction.
fn write_five_in_new(
    rt: &impl Abort,
    alloc: Global,
    db: &mut Kvdb<MemDisk>,
    value: &[u8],
) -> Result<(), Fail> {
    let mut txn = db.begin(alloc)?;
    write_five(rt, alloc, db, &mut txn, value)
}

#[test]
fn a_transaction_larger_than_a_segment_is_refused(rt: HostRuntime) -> Result<(), Fail> {
    let value = long_value(rt.alloc())?;
    let mut db = engine(rt.alloc(), &formed_of(&rt, rt.alloc(), &PARAMS)?)?;
    let told = write_five_in_new(&rt, rt.alloc(), &mut db, &value);
    leave(db);
    told
}

/// A transaction that would have room alone commits behind four puts.
fn commit_fifth(
    rt: &impl Abort,
    alloc: Global,
    db: &mut Kvdb<MemDisk>,
    txn: &mut Txn<Kvset>,
    value: &[u8],
) -> Result<(), Fail> {
    let full = Err(CommitFault::LogFull(60_060, 21_840));
    expect_write(rt, alloc, db, txn, b"a", value, Ok(()))?;
    put_four(rt, alloc, db, value)?;
    expect_commit(rt, alloc, db, txn, full);
    expect_abort(rt, db, txn);
    Ok(())
}

/// This in a new transaction.
fn commit_fifth_in_new(
    rt: &impl Abort,
    alloc: Global,
    db: &mut Kvdb<MemDisk>,
    value: &[u8],
) -> Result<(), Fail> {
    let mut txn = db.begin(alloc)?;
    commit_fifth(rt, alloc, db, &mut txn, value)
}

#[test]
fn a_commit_without_room_in_the_segment_is_refused(rt: HostRuntime) -> Result<(), Fail> {
    let value = long_value(rt.alloc())?;
    let mut db = engine(rt.alloc(), &formed_of(&rt, rt.alloc(), &PARAMS)?)?;
    let told = commit_fifth_in_new(&rt, rt.alloc(), &mut db, &value);
    leave(db);
    told
}

/// Halves of 65,536 bytes, whose batches may take 65,526, and more stores than their names have room for.
const MANY: Params = Params {
    power: 16,
    slots: 4,
    manifest: 65_536,
    log: 65_536,
    stores: 2_048,
};

/// A name of 31 bytes, another one for each number below 65,536.
fn long_name(alloc: Global, number: u32) -> Result<StoreName, Fail> {
    let mut name = [b'a'; 31];
    for (at, letter) in name.iter_mut().enumerate() {
        *letter = b'a' + ((number >> (4 * (at as u32 & 3))) & 15) as u8;
    }
    Ok(StoreName::new(alloc, &name)?)
}

/// The wish of a store whose name has 31 bytes.
fn long_creation(alloc: Global, number: u32) -> Result<TurnWish, Fail> {
    Ok(TurnWish::Create(long_name(alloc, number)?, Mode::Plain, 0))
}

/// Creates so many stores on a device that has none.
fn create_many(
    rt: &impl Abort,
    alloc: Global,
    db: &mut Kvdb<MemDisk>,
    count: u32,
) -> Result<(), Fail> {
    for number in 0..count {
        let wish = long_creation(alloc, number)?;
        expect_done(rt, alloc, db, &wish, number as u64 + 1)?;
    }
    Ok(())
}

/// A base of n stores of such names, whose numbers are one run, takes 5 + 25 + 8 + 46 n bytes: 65,496 of 1,423 and 65,542 of
/// 1,424. A creation takes 48, a drop 22, and a creation of a name of one byte 18. The first half has room for
/// 1,364 creations behind its base of 30; it rolls to 1,365 stores, which leave room for 56 more, and to 1,422, which
/// leave it for one.
fn fill_half(rt: &impl Abort, alloc: Global, db: &mut Kvdb<MemDisk>) -> Result<(), Fail> {
    let full = TurnFault::ManifestFull(65_542, 65_526);
    let next = long_creation(alloc, 1_423)?;
    let last = TurnWish::Drop(long_name(alloc, 1_422)?);
    create_many(rt, alloc, db, 1_423)?;
    expect_refusal(rt, alloc, db, &next, full)?;
    expect_done(rt, alloc, db, &last, 1_424)?;
    expect_done(rt, alloc, db, &next, 1_425)?;
    expect_refusal(rt, alloc, db, &long_creation(alloc, 1_424)?, full)?;
    expect_done(rt, alloc, db, &creation(alloc, b"u", 0)?, 1_426)
}

#[test]
fn a_store_without_room_in_the_manifest_is_refused(rt: HostRuntime) -> Result<(), Fail> {
    let mut disk = MemDisk::new(rt.alloc());
    format(rt.alloc(), &mut disk, &MANY)?;
    let mut db = engine_of(rt.alloc(), disk)?;
    let told = fill_half(&rt, rt.alloc(), &mut db);
    leave(db);
    told
}
