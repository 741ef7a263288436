//! Turns of the device side, and devices that stop within.
ghost use Rattle.back.specs.Plans.{HasRoomFor};
ghost use Rattle.std.specs.Prelude.{IfOk};

use crate::device::SIZE;
use crate::filled::{TAKEN, full};
use crate::recovers::formed;
use back::{Back, EntryPlan};
use gate_log::Batch;
use hse_rows::{Mode, StoreId, StoreName, TakenRun};
use manifest::{Base, BaseStore, Entry};
use media_disk::{Disk, Failed, Fill, MemDisk};
use recovery::{Recovered, recover};
use std::alloc::Global;
use std::process::Abort;
use std::test::Fail;

/// The batch of one commit of this number, which puts the value `w` at the key `k` of store 1.
fn commit(alloc: Global, number: u64) -> Result<Batch, Fail> {
    let mut payload = vec![in alloc; 0, 0, 0, 1]?;
    payload.extend_from_slice(&number.to_be_bytes())?;
    payload.extend_from_slice(&[0, 0, 0, 1, 1])?;
    payload.extend_from_slice(&1u64.to_be_bytes())?;
    payload.extend_from_slice(&[0, 1, 0x6B, 0, 0, 0, 1, 0x77])?;
    Ok(Batch::of(alloc, &payload)?)
}

/// What a turn writes: a commit alone, or a creation or a drop behind it.
#[derive(Clone, Copy, Debug, PartialEq, Eq)]
enum Turn {
    Sync,
    Create,
    Drop,
}

/// What a device stores: its last number, how many stores live, and what its log's commits take.
#[derive(Clone, Copy, Debug, PartialEq, Eq)]
struct Stored {
    number: u64,
    stores: usize,
    charges: u64,
}

/// How the device fails: at one call alone, or from it on.
#[derive(Clone, Copy, Debug, PartialEq, Eq)]
struct Fault {
    call: u64,
    once: bool,
}

/// What the device stores.
fn what_is_stored(alloc: Global, disk: &mut MemDisk) -> Result<Stored, Fail> {
    let found = recover(alloc, disk)?;
    Ok(Stored {
        number: found.number,
        stores: found.base.stores.len(),
        charges: found.log.charges,
    })
}

/// The device side of what the device stores.
fn back(
    rt: &impl Abort,
    alloc: Global,
    mut disk: MemDisk,
) -> Result<(Back<MemDisk>, Recovered), Fail> {
    let found = recover(alloc, &mut disk)?;
    let region = found.log.region;
    let len = disk.bytes().len() as u64;
    assert!(rt; region.at <= SIZE as u64);
    assert!(rt; region.size <= SIZE as u64);
    assert!(rt; region.at + region.size <= len);
    assert!(rt; found.manifest.layout.size() <= len);
    let back = Back {
        disk,
        layout: found.layout,
        log: found.log,
        manifest: found.manifest,
    };
    Ok((back, found))
}

/// The creation of the store of this number, or the drop of store 1 by it, and the base after it.
fn entry_of(
    rt: &impl Abort,
    alloc: Global,
    turn: Turn,
    number: u64,
    base: Base,
) -> Result<(Entry, Base), Fail> {
    assert!(rt; number < 1_000_000_000_000_000);
    let mut base = base;
    base.taken.push(TakenRun {
        first: number,
        count: 1,
    })?;
    if turn == Turn::Drop {
        base.stores.retain(|store| store.id.0 != 1);
        return Ok((Entry::Drop(number, StoreId(1)), base));
    }
    base.stores.push(BaseStore {
        id: StoreId(number),
        name: StoreName::new(alloc, b"t")?,
        mode: Mode::Tx,
        prefix: 0,
    })?;
    let entry = Entry::Create(number, StoreName::new(alloc, b"t")?, Mode::Tx, 0);
    Ok((entry, base))
}

/// The plan of the turn's entry.
fn plan(
    rt: &impl Abort,
    alloc: Global,
    turn: Turn,
    back: &Back<MemDisk>,
    found: Recovered,
) -> Result<EntryPlan, Fail>
    ensures { IfOk result (λ plan. HasRoomFor back.now.manifest plan) }
{
    let number = found.number.saturating_add(2);
    let (entry, after) = entry_of(rt, alloc, turn, number, found.base)?;
    assert!(rt; entry.is_short());
    assert!(rt; after.is_short());
    match back.plan_entry(alloc, &entry, &after) {
        Ok(plan) => Ok(plan),
        Err(fault) => Err(fault.into()),
    }
}

/// Runs the turn on the device of these bytes, which fails so.
fn run(
    rt: &impl Abort,
    alloc: Global,
    bytes: &[u8],
    turn: Turn,
    fault: Fault,
) -> Result<(MemDisk, Result<(), Failed>), Fail> {
    let (mut back, found) = back(rt, alloc, MemDisk::of(alloc, bytes.to_vec(alloc)?))?;
    let batch = commit(alloc, found.number.saturating_add(1))?;
    let plan = plan(rt, alloc, turn, &back, found)?;
    assert!(rt; back.log.has_room_for(&batch));
    let first = back.disk.clock().saturating_add(fault.call);
    if fault.once {
        back.disk.fail_at(vec![in alloc; first]?);
    } else {
        back.disk.fail_from(first);
    }
    let answer = match turn {
        Turn::Sync => back.sync(&batch),
        Turn::Create => back.create_store(Some(&batch), &plan),
        Turn::Drop => back.drop_store(Some(&batch), &plan),
    };
    Ok((back.disk, answer))
}

/// What pending ranges hold where the device stops.
static FILLS: [Fill; 5] = [
    Fill::Old,
    Fill::New,
    Fill::Torn,
    Fill::Byte(0),
    Fill::Byte(79),
];

/// Which of these came up where the device stops at each of so many calls of the turn, with each
/// fill. Nothing else does.
fn outcomes(
    rt: &impl Abort,
    alloc: Global,
    bytes: &[u8],
    turn: Turn,
    calls: u64,
    may: &[Stored; 3],
) -> Result<[bool; 3], Fail> {
    let mut seen = [false; 3];
    for call in 0..calls {
        for fill in &FILLS {
            let fault = Fault { call, once: false };
            let (disk, _) = run(rt, alloc, bytes, turn, fault)?;
            let mut disk = disk.stopped(alloc, *fill)?;
            let found = what_is_stored(alloc, &mut disk)?;
            assert!(rt; may.contains(&found));
            for at in 0..3 {
                seen[at] = seen[at] || may[at] == found;
            }
        }
    }
    Ok(seen)
}

/// Each call of the turn fails alone: it answers so, and the device stores one of these.
fn fails_once(
    rt: &impl Abort,
    alloc: Global,
    bytes: &[u8],
    turn: Turn,
    calls: u64,
    may: &[Stored; 3],
) -> Result<(), Fail> {
    for call in 0..calls {
        let fault = Fault { call, once: true };
        let (mut disk, answer) = run(rt, alloc, bytes, turn, fault)?;
        assert_eq!(rt; answer, Err(Failed));
        let found = what_is_stored(alloc, &mut disk)?;
        assert!(rt; may.contains(&found));
    }
    let fault = Fault {
        call: calls,
        once: true,
    };
    let (disk, answer) = run(rt, alloc, bytes, turn, fault)?;
    assert_eq!(rt; answer, Ok(()));
    let mut disk = disk.stopped(alloc, Fill::Old)?;
    assert_eq!(rt; what_is_stored(alloc, &mut disk)?, may[2]);
    Ok(())
}

/// What the device stores by numbers; each commit takes 61 bytes.
const fn stores(number: u64, stores: usize, charges: u64) -> Stored {
    Stored {
        number,
        stores,
        charges,
    }
}

#[test]
fn a_stop_within_a_sync_leaves_the_commits_whole_or_not_at_all(
    rt: HostRuntime,
) -> Result<(), Fail> {
    let bytes = formed(&rt, rt.alloc())?;
    let may = [stores(2, 1, 61), stores(3, 1, 122), stores(3, 1, 122)];
    let seen = outcomes(&rt, rt.alloc(), &bytes, Turn::Sync, 4, &may)?;
    assert_eq!(rt; seen, [true, true, true]);
    fails_once(&rt, rt.alloc(), &bytes, Turn::Sync, 4, &may)
}

#[test]
fn a_stop_within_a_creation_leaves_the_commits_before_it(rt: HostRuntime) -> Result<(), Fail> {
    let bytes = formed(&rt, rt.alloc())?;
    let may = [stores(2, 1, 61), stores(3, 1, 122), stores(4, 2, 122)];
    let seen = outcomes(&rt, rt.alloc(), &bytes, Turn::Create, 8, &may)?;
    assert_eq!(rt; seen, [true, true, true]);
    fails_once(&rt, rt.alloc(), &bytes, Turn::Create, 8, &may)
}

#[test]
fn a_stop_within_a_drop_leaves_the_commits_before_it(rt: HostRuntime) -> Result<(), Fail> {
    let bytes = formed(&rt, rt.alloc())?;
    let may = [stores(2, 1, 61), stores(3, 1, 122), stores(4, 0, 122)];
    let seen = outcomes(&rt, rt.alloc(), &bytes, Turn::Drop, 8, &may)?;
    assert_eq!(rt; seen, [true, true, true]);
    fails_once(&rt, rt.alloc(), &bytes, Turn::Drop, 8, &may)
}

#[test]
fn a_stop_within_a_creation_that_rolls_leaves_the_commits_before_it(
    rt: HostRuntime,
) -> Result<(), Fail> {
    let bytes = full(&rt, rt.alloc())?;
    let may = [
        stores(TAKEN + 74, 0, 0),
        stores(TAKEN + 75, 0, 61),
        stores(TAKEN + 76, 1, 61),
    ];
    let seen = outcomes(&rt, rt.alloc(), &bytes, Turn::Create, 13, &may)?;
    assert_eq!(rt; seen, [true, true, true]);
    fails_once(&rt, rt.alloc(), &bytes, Turn::Create, 13, &may)
}
