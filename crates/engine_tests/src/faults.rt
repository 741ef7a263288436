//! Device calls that fail, and an engine that is opened again or closed.
use crate::device::{engine, engine_of, formed, has, leave, put};
use crate::turns::{CALLS, Fault, failing, has_both, refusal, synced};
use engine_state::WriteFault;
use kvdb::{Broken, CloseFault, Closed, Kvdb, TurnFault, TurnWish};
use media_disk::{Fill, MemDisk};
use std::alloc::Global;
use std::process::Abort;
use std::test::Fail;

/// The sync fails; then the engine takes no write and no turn, until it is opened again.
fn break_and_open(rt: &impl Abort, alloc: Global, db: &mut Kvdb<MemDisk>) -> Result<(), Fail> {
    let ran = synced(alloc, db)?;
    assert!(rt; ran.failed());
    db.mark_broken(&ran);
    assert_eq!(rt; db.end_turn(ran), Err(Broken));
    assert_eq!(rt; put(alloc, db, b"c", b"x")?, Err(WriteFault::Broken));
    assert_eq!(rt; refusal(alloc, db)?, TurnFault::Broken);
    assert!(rt; has(alloc, db, b"a", Some(b"v".as_slice()))?);
    let number = db.reopen(alloc)?;
    assert_eq!(rt; has_both(rt, alloc, db)?, number == 4);
    assert_eq!(rt; put(alloc, db, b"c", b"x")?, Ok(number.saturating_add(1)));
    Ok(())
}

#[test]
fn an_engine_whose_turn_failed_takes_nothing_until_it_is_opened_again(
    rt: HostRuntime,
) -> Result<(), Fail> {
    let bytes = formed(&rt, rt.alloc())?;
    for call in 0..CALLS {
        let mut db = failing(rt.alloc(), &bytes, Fault { call, once: true })?;
        let told = break_and_open(&rt, rt.alloc(), &mut db);
        leave(db);
        told?;
    }
    Ok(())
}

/// A reopening loses what was not synced.
fn open_again(rt: &impl Abort, alloc: Global, db: &mut Kvdb<MemDisk>) -> Result<(), Fail> {
    put(alloc, db, b"a", b"v")??;
    let turn = db.take_turn(alloc, &TurnWish::Sync)?;
    let ran = turn.run();
    assert!(rt; !ran.failed());
    assert_eq!(rt; db.end_turn(ran), Ok(3));
    assert_eq!(rt; put(alloc, db, b"b", b"w")?, Ok(4));
    assert_eq!(rt; db.reopen(alloc), Ok(3));
    assert!(rt; has(alloc, db, b"a", Some(b"v".as_slice()))?);
    assert!(rt; has(alloc, db, b"b", None)?);
    Ok(())
}

#[test]
fn a_reopening_begins_at_what_is_safe(rt: HostRuntime) -> Result<(), Fail> {
    let mut db = engine(rt.alloc(), &formed(&rt, rt.alloc())?)?;
    let told = open_again(&rt, rt.alloc(), &mut db);
    leave(db);
    told
}

#[test]
fn a_closing_makes_all_safe(rt: HostRuntime) -> Result<(), Fail> {
    let mut db = engine(rt.alloc(), &formed(&rt, rt.alloc())?)?;
    let put = put(rt.alloc(), &mut db, b"a", b"v");
    let closed = db.close(rt.alloc());
    let Closed { disk, result } = closed;
    assert_eq!(rt; put?, Ok(3));
    assert_eq!(rt; result, Ok(3));
    let db = engine_of(rt.alloc(), disk.stopped(rt.alloc(), Fill::Byte(0))?)?;
    let has = has(rt.alloc(), &db, b"a", Some(b"v".as_slice()));
    let number = db.view().number();
    leave(db);
    assert!(rt; has?);
    assert_eq!(rt; number, 3);
    Ok(())
}

#[test]
fn a_closing_tells_of_a_device_that_failed(rt: HostRuntime) -> Result<(), Fail> {
    let bytes = formed(&rt, rt.alloc())?;
    for call in 0..CALLS {
        let mut db = failing(rt.alloc(), &bytes, Fault { call, once: true })?;
        let put = put(rt.alloc(), &mut db, b"a", b"v");
        let Closed { disk: _, result } = db.close(rt.alloc());
        assert_eq!(rt; put?, Ok(3));
        assert_eq!(rt; result, Err(CloseFault::Device));
    }
    Ok(())
}

#[test]
fn an_empty_device_is_made_a_new_one(rt: HostRuntime) -> Result<(), Fail> {
    let db = engine_of(rt.alloc(), MemDisk::new(rt.alloc()))?;
    let number = db.view().number();
    let stores = db.view().stores().len();
    let Closed { disk, result } = db.close(rt.alloc());
    assert_eq!(rt; number, 0);
    assert_eq!(rt; stores, 0);
    assert_eq!(rt; result, Ok(0));
    let disk = disk.stopped(rt.alloc(), Fill::Byte(0))?;
    let db = engine_of(rt.alloc(), disk)?;
    let number = db.view().number();
    leave(db);
    assert_eq!(rt; number, 0);
    Ok(())
}
