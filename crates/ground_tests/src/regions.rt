use gate_log::{AppendFault, Batch, Found, Region, RegionFault, Tail, append, read_region, start};
use hse_io::NoMemory;
use media_disk::{Disk, Fill, MemDisk};
use std::alloc::Global;
use std::process::Abort;
use std::test::Fail;

// The region of the tests, on a device of 32 bytes.
const REGION: Region = Region { at: 4, size: 24 };

// What a region holds: nothing, or a sequence and this many batches.
#[derive(Clone, Copy, Debug, PartialEq, Eq)]
enum Holding {
    Nothing,
    Batches(u64, usize),
}

fn add(
    rt: &impl Abort,
    alloc: Global,
    disk: &mut MemDisk,
    tail: &mut Tail,
    payload: &[u8],
) -> Result<Result<(), AppendFault>, NoMemory> {
    let len = disk.bytes().len();
    assert!(rt; len == 32);
    assert!(rt; tail.place < 24);
    assert!(rt; payload.len() < 24);
    let batch = Batch::of(alloc, payload)?;
    Ok(append(disk, &REGION, tail, &batch))
}

fn read(rt: &impl Abort, alloc: Global, disk: &mut MemDisk) -> Result<Option<Found>, RegionFault> {
    let len = disk.bytes().len();
    assert!(rt; len == 32);
    read_region(alloc, disk, &REGION)
}

fn held(rt: &impl Abort, alloc: Global, disk: &mut MemDisk) -> Result<Holding, Fail> {
    match read(rt, alloc, disk)? {
        None => Ok(Holding::Nothing),
        Some(found) => Ok(Holding::Batches(found.sequence, found.batches.len())),
    }
}

// A device whose region is started with sequence 1 and holds the batch "hi".
fn with_one_batch(rt: &impl Abort, alloc: Global) -> Result<(MemDisk, Tail), Fail> {
    let mut disk = MemDisk::of(alloc, b"--------------------------------".to_vec(alloc)?);
    let len = disk.bytes().len();
    assert!(rt; len == 32);
    let mut tail = start(&mut disk, &REGION, 1)?;
    add(rt, alloc, &mut disk, &mut tail, b"hi")??;
    Ok((disk, tail))
}

// The call from which on the device fails, and what its pending ranges hold then: 40 cases.
fn stop(case: u64) -> (u64, Fill) {
    let fill = match case % 5 {
        0 => Fill::Old,
        1 => Fill::New,
        2 => Fill::Torn,
        3 => Fill::Byte(0),
        _ => Fill::Byte(79),
    };
    (case / 5, fill)
}

// How many batches stand after an append of "yo" that is stopped, and whether it answered.
fn batches_after(rt: &impl Abort, alloc: Global, case: u64) -> Result<(bool, usize), Fail> {
    let (mut disk, mut tail) = with_one_batch(rt, alloc)?;
    let (call, fill) = stop(case);
    let first = disk.clock().saturating_add(call);
    disk.fail_from(first);
    let added = add(rt, alloc, &mut disk, &mut tail, b"yo")?;
    let mut disk = disk.stopped(alloc, fill)?;
    let found = read(rt, alloc, &mut disk)?.ok_or("the head is closed")?;
    assert_eq!(rt; found.sequence, 1);
    let batches = found.batches;
    let count = batches.len();
    assert!(rt; count == 1 || count == 2);
    assert_eq!(rt; batches[0].bytes.as_slice(), b"hi".as_slice());
    if count == 2 {
        assert_eq!(rt; batches[1].bytes.as_slice(), b"yo".as_slice());
    }
    Ok((added.is_ok(), count))
}

#[test]
fn a_crash_at_any_call_leaves_the_old_batches_or_the_new_one_too(
    rt: HostRuntime,
) -> Result<(), Fail> {
    let mut both = [false, false];
    for case in 0..25 {
        let (added, count) = batches_after(&rt, rt.alloc(), case)?;
        assert_eq!(rt; added, case >= 20);
        assert!(rt; !added || count == 2);
        both[0] = both[0] || count == 1;
        both[1] = both[1] || count == 2 && !added;
    }
    assert_eq!(rt; both, [true, true]);
    Ok(())
}

// The device after a start that is stopped, and whether it answered.
fn started(
    rt: &impl Abort,
    alloc: Global,
    device: MemDisk,
    sequence: u64,
    case: u64,
) -> Result<(MemDisk, bool), Fail> {
    let mut disk = device;
    let (call, fill) = stop(case);
    let first = disk.clock().saturating_add(call);
    disk.fail_from(first);
    let len = disk.bytes().len();
    assert!(rt; len == 32);
    let answered = start(&mut disk, &REGION, sequence).is_ok();
    Ok((disk.stopped(alloc, fill)?, answered))
}

// What the region holds after a start that is stopped, and after another one that is stopped too.
fn held_twice(
    rt: &impl Abort,
    alloc: Global,
    first: u64,
    second: u64,
) -> Result<(Holding, Holding), Fail> {
    let (disk, _) = with_one_batch(rt, alloc)?;
    let (mut disk, _) = started(rt, alloc, disk, 2, first)?;
    let between = held(rt, alloc, &mut disk)?;
    let (mut disk, answered) = started(rt, alloc, disk, 3, second)?;
    let after = held(rt, alloc, &mut disk)?;
    assert!(rt; !answered || after == Holding::Batches(3, 0));
    Ok((between, after))
}

// All stops of the second start.
fn stopped_again(rt: &impl Abort, alloc: Global, first: u64) -> Result<[bool; 2], Fail> {
    let mut seen = [false, false];
    for second in 0..40 {
        let (between, after) = held_twice(rt, alloc, first, second)?;
        assert!(rt;
            matches!(
                between,
                Holding::Nothing | Holding::Batches(1, 1) | Holding::Batches(2, 0)
            )
        );
        assert!(rt; after == between || matches!(after, Holding::Nothing | Holding::Batches(3, 0)));
        seen[0] = seen[0] || between == Holding::Nothing && after == Holding::Nothing;
        seen[1] = seen[1] || between == Holding::Batches(1, 1) && after == between;
    }
    Ok(seen)
}

#[test]
fn a_region_whose_start_is_stopped_twice_is_closed_or_started_or_as_it_was(
    rt: HostRuntime,
) -> Result<(), Fail> {
    let mut seen = [false, false];
    for first in 0..40 {
        let [closed, same] = stopped_again(&rt, rt.alloc(), first)?;
        seen[0] = seen[0] || closed;
        seen[1] = seen[1] || same;
    }
    assert_eq!(rt; seen, [true, true]);
    Ok(())
}

#[test]
fn the_bytes_of_a_region_with_one_batch(rt: HostRuntime) -> Result<(), Fail> {
    let (disk, tail) = with_one_batch(&rt, rt.alloc())?;
    let want = b"----O\0\0\0\0\0\0\0\x01O\0\0\0\x02hi\0-----------";
    assert_eq!(rt; disk.bytes(), want.as_slice());
    assert_eq!(rt; tail.place, 16);
    Ok(())
}

#[test]
fn a_batch_that_is_cut_off_has_the_place_of_its_length(rt: HostRuntime) -> Result<(), Fail> {
    let alloc = rt.alloc();
    let bytes = b"----O\0\0\0\0\0\0\0\x01O\0\0\0\x02hiO\0\0\0\x03abc----";
    let mut disk = MemDisk::of(alloc, bytes.to_vec(alloc)?);
    let fault = read(&rt, alloc, &mut disk).err().ok_or("it was read")?;
    assert_eq!(rt; fault, RegionFault::Damaged(17));
    Ok(())
}
