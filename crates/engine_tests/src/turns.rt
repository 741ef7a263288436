//! Turns of a sync, devices that stop within, and what comes behind a turn that is out.
ghost use Rattle.std.specs.Prelude.{◌≡◌, IfOk, IsSome, OnOk};
ghost use Rattle.kvdb.specs.Sides.{device_in};
ghost use Rattle.kvdb.specs.declared.side.Side.TheVariants as side;

use crate::device::{engine, engine_of, formed, has, leave, put};
use kvdb::{Kvdb, Ran, TurnFault, TurnKind, TurnWish};
use media_disk::{Fill, MemDisk};
use std::alloc::Global;
use std::process::Abort;
use std::test::Fail;

/// How the device fails: at one call of a turn alone, or from it on.
#[derive(Clone, Copy, Debug, PartialEq, Eq)]
pub(crate) struct Fault {
    pub call: u64,
    pub once: bool,
}

/// How many calls a sync makes.
pub(crate) const CALLS: u64 = 4;

/// The clock of the device of these bytes behind its opening.
fn opened_at(alloc: Global, bytes: &[u8]) -> Result<u64, Fail> {
    let db = engine(alloc, bytes)?;
    let clock = db.clock();
    leave(db);
    match clock {
        Some(clock) => Ok(clock),
        None => Err("a turn is out".into()),
    }
}

/// The engine of a device of these bytes, which fails so in its first turn.
pub(crate) fn failing(alloc: Global, bytes: &[u8], fault: Fault) -> Result<Kvdb<MemDisk>, Fail>
    ensures { IfOk result (λ db. IsSome (device_in db.side)) }
{
    let at = opened_at(alloc, bytes)?.saturating_add(fault.call);
    let mut disk = MemDisk::of(alloc, bytes.to_vec(alloc)?);
    if fault.once {
        disk.fail_at(vec![in alloc; at]?);
    } else {
        disk.fail_from(at);
    }
    engine_of(alloc, disk)
}

/// The sync of two writes, of the keys `a` and `b`, that has run.
pub(crate) fn synced(alloc: Global, db: &mut Kvdb<MemDisk>) -> Result<Ran<MemDisk>, Fail>
    ensures { IfOk result (λ ran. db.new.side ≡ side.Out ran.kind ran.number) }
{
    put(alloc, db, b"a", b"v")??;
    put(alloc, db, b"b", b"w")??;
    let turn = db.take_turn(alloc, &TurnWish::Sync)?;
    Ok(turn.run())
}

/// Why no sync is taken.
pub(crate) fn refusal(alloc: Global, db: &mut Kvdb<MemDisk>) -> Result<TurnFault, Fail>
    ensures { OnOk result (db.new.side ≡ db.old.side) }
{
    match db.take_turn(alloc, &TurnWish::Sync) {
        Ok(turn) => {
            let _disk = turn.stop();
            Err("a turn was taken".into())
        }
        Err(fault) => Ok(fault),
    }
}

/// What pending ranges hold where the device stops.
pub(crate) static FILLS: [Fill; 5] = [
    Fill::Old,
    Fill::New,
    Fill::Torn,
    Fill::Byte(0),
    Fill::Byte(79),
];

/// Whether the engine has both writes; it has both or none.
pub(crate) fn has_both(rt: &impl Abort, alloc: Global, db: &Kvdb<MemDisk>) -> Result<bool, Fail> {
    let number = db.view().number();
    assert!(rt; number == 2 || number == 4);
    let both = number == 4;
    assert_eq!(rt; has(alloc, db, b"a", Some(b"v".as_slice()))?, both);
    assert_eq!(rt; has(alloc, db, b"b", Some(b"w".as_slice()))?, both);
    assert_eq!(rt; has(alloc, db, b"a", None)?, !both);
    Ok(both)
}

/// Whether the device has them.
fn stores_both(rt: &impl Abort, alloc: Global, disk: MemDisk) -> Result<bool, Fail> {
    let db = engine_of(alloc, disk)?;
    let both = has_both(rt, alloc, &db);
    leave(db);
    both
}

/// Whether a device that stops at this call of the sync, filled so, has both writes.
fn outcome(
    rt: &impl Abort,
    alloc: Global,
    bytes: &[u8],
    call: u64,
    fill: Fill,
) -> Result<bool, Fail> {
    let mut db = failing(alloc, bytes, Fault { call, once: false })?;
    match synced(alloc, &mut db) {
        Err(fault) => {
            leave(db);
            Err(fault)
        }
        Ok(ran) => {
            db.stop();
            let failed = ran.failed();
            let disk = ran.stop();
            assert!(rt; failed);
            stores_both(rt, alloc, disk.stopped(alloc, fill)?)
        }
    }
}

#[test]
fn a_stop_within_a_sync_leaves_the_commits_whole_or_not_at_all(
    rt: HostRuntime,
) -> Result<(), Fail> {
    let bytes = formed(&rt, rt.alloc())?;
    let mut seen = [false; 2];
    for call in 0..CALLS {
        for fill in &FILLS {
            let both = outcome(&rt, rt.alloc(), &bytes, call, *fill)?;
            seen[0] = seen[0] || both;
            seen[1] = seen[1] || !both;
        }
    }
    assert_eq!(rt; seen, [true, true]);
    Ok(())
}

/// A write where a turn is out, and the refusal of a second turn.
fn write_and_wish(alloc: Global, db: &mut Kvdb<MemDisk>) -> Result<(u64, TurnFault), Fail>
    ensures { OnOk result (db.new.side ≡ db.old.side) }
{
    let number = put(alloc, db, b"c", b"x")??;
    let fault = refusal(alloc, db)?;
    Ok((number, fault))
}

/// A commit behind a turn that is out is not written by it, and a second turn waits.
fn write_behind(rt: &impl Abort, alloc: Global, db: &mut Kvdb<MemDisk>) -> Result<(), Fail> {
    put(alloc, db, b"a", b"v")??;
    put(alloc, db, b"b", b"w")??;
    let turn = db.take_turn(alloc, &TurnWish::Sync)?;
    match write_and_wish(alloc, db) {
        Err(fault) => {
            let _disk = turn.stop();
            Err(fault)
        }
        Ok((number, busy)) => {
            let ran = turn.run();
            assert!(rt; !ran.failed());
            assert_eq!(rt; db.end_turn(ran), Ok(4));
            assert_eq!(rt; number, 5);
            assert_eq!(rt; busy, TurnFault::Busy(TurnKind::Sync));
            Ok(())
        }
    }
}

#[test]
fn a_commit_behind_a_turn_is_not_the_turns(rt: HostRuntime) -> Result<(), Fail> {
    let mut db = engine(rt.alloc(), &formed(&rt, rt.alloc())?)?;
    let told = write_behind(&rt, rt.alloc(), &mut db);
    let left = db.stop();
    told?;
    let Some(disk) = left else {
        return Err("a turn is out".into());
    };
    let disk = disk.stopped(rt.alloc(), Fill::Byte(0))?;
    assert!(rt; stores_both(&rt, rt.alloc(), disk)?);
    Ok(())
}
