//! Devices that stop or fail within a creation or a drop.
ghost use Rattle.std.specs.Prelude.{◌≡◌, IfOk};
ghost use Rattle.kvdb.specs.declared.side.Side.TheVariants as side;

use crate::device::{engine_of, formed, has, leave, put};
use crate::stores::{creation, put_in, ran, removal};
use crate::turns::{FILLS, Fault, failing};
use engine_state::WriteFault;
use hse_rows::StoreName;
use kvdb::{Broken, Kvdb, Ran, TurnWish};
use media_disk::{Fill, MemDisk};
use std::alloc::Global;
use std::process::Abort;
use std::test::Fail;

/// How many calls a creation or a drop makes behind a commit.
const CALLS: u64 = 8;

/// A commit, and behind it the turn, which has run.
fn written(alloc: Global, db: &mut Kvdb<MemDisk>, wish: &TurnWish) -> Result<Ran<MemDisk>, Fail>
    ensures { IfOk result (λ ran. db.new.side ≡ side.Out ran.kind ran.number) }
{
    put(alloc, db, b"a", b"v")??;
    ran(alloc, db, wish)
}

/// Whether there is a store of the name.
fn has_store(alloc: Global, db: &Kvdb<MemDisk>, name: &[u8]) -> Result<bool, Fail> {
    let name = StoreName::new(alloc, name)?;
    Ok(db.view().get(&name, b"k").is_ok())
}

/// The number that a device stores: none of the commit and the event, the commit, or both.
fn number_in(
    rt: &impl Abort,
    alloc: Global,
    db: &Kvdb<MemDisk>,
    name: &[u8],
    comes: bool,
) -> Result<u64, Fail> {
    let number = db.view().number();
    assert!(rt; number >= 2 && number <= 4);
    assert_eq!(rt; has(alloc, db, b"a", Some(b"v".as_slice()))?, number >= 3);
    assert_eq!(rt; has_store(alloc, db, name)?, (number == 4) == comes);
    Ok(number)
}

/// The same of a device that stopped.
fn stored(
    rt: &impl Abort,
    alloc: Global,
    disk: MemDisk,
    name: &[u8],
    comes: bool,
) -> Result<u64, Fail> {
    let db = engine_of(alloc, disk)?;
    let number = number_in(rt, alloc, &db, name, comes);
    leave(db);
    number
}

/// A creation of `u`, or a drop of `t`.
fn wish_of(alloc: Global, comes: bool) -> Result<TurnWish, Fail> {
    if comes {
        creation(alloc, b"u", 0)
    } else {
        removal(alloc, b"t")
    }
}

/// The name that comes or goes.
fn name_of(comes: bool) -> &'static [u8] {
    if comes { b"u" } else { b"t" }
}

/// What a device stores that stops at this call of the turn, filled so.
fn outcome(
    rt: &impl Abort,
    alloc: Global,
    bytes: &[u8],
    comes: bool,
    call: u64,
    fill: Fill,
) -> Result<u64, Fail> {
    let wish = wish_of(alloc, comes)?;
    let mut db = failing(alloc, bytes, Fault { call, once: false })?;
    match written(alloc, &mut db, &wish) {
        Err(fault) => {
            leave(db);
            Err(fault)
        }
        Ok(ran) => {
            db.stop();
            let failed = ran.failed();
            let disk = ran.stop();
            assert!(rt; failed);
            stored(rt, alloc, disk.stopped(alloc, fill)?, name_of(comes), comes)
        }
    }
}

/// Each outcome comes up, and no other.
fn stop_each(rt: &impl Abort, alloc: Global, comes: bool) -> Result<(), Fail> {
    let bytes = formed(rt, alloc)?;
    let mut seen = [false; 3];
    for call in 0..CALLS {
        for fill in &FILLS {
            let number = outcome(rt, alloc, &bytes, comes, call, *fill)?;
            seen[0] = seen[0] || number == 2;
            seen[1] = seen[1] || number == 3;
            seen[2] = seen[2] || number == 4;
        }
    }
    assert_eq!(rt; seen, [true, true, true]);
    Ok(())
}

#[test]
fn a_stop_within_a_creation_leaves_the_commits_or_the_store_too(
    rt: HostRuntime,
) -> Result<(), Fail> {
    stop_each(&rt, rt.alloc(), true)
}

#[test]
fn a_stop_within_a_drop_leaves_the_commits_or_no_store(rt: HostRuntime) -> Result<(), Fail> {
    stop_each(&rt, rt.alloc(), false)
}

/// The creation fails: it has happened, but the engine takes nothing more until it is opened again.
fn break_and_open(rt: &impl Abort, alloc: Global, db: &mut Kvdb<MemDisk>) -> Result<(), Fail> {
    let wish = wish_of(alloc, true)?;
    let ran = written(alloc, db, &wish)?;
    assert!(rt; ran.failed());
    db.mark_broken(&ran);
    assert_eq!(rt; db.end_turn(ran), Err(Broken));
    assert!(rt; has_store(alloc, db, b"u")?);
    assert_eq!(rt;
        put_in(alloc, db, b"u", b"k", b"v")?,
        Err(WriteFault::Broken)
    );
    let number = db.reopen(alloc)?;
    assert_eq!(rt; number_in(rt, alloc, db, b"u", true)?, number);
    Ok(())
}

#[test]
fn a_creation_that_failed_is_there_or_not_after_a_reopening(rt: HostRuntime) -> Result<(), Fail> {
    let bytes = formed(&rt, rt.alloc())?;
    for call in 0..CALLS {
        let mut db = failing(rt.alloc(), &bytes, Fault { call, once: true })?;
        let told = break_and_open(&rt, rt.alloc(), &mut db);
        leave(db);
        told?;
    }
    Ok(())
}
