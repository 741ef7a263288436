//! Entries that are added, and devices that stop within.
use crate::device::{CREATE, EMPTY, FULL, loaded, with_batches};
use gate_log::Batch;
use manifest::ManifestFault;
use media_disk::{Disk, Fill, MemDisk};
use std::alloc::Global;
use std::process::Abort;
use std::test::Fail;

/// Adds the creation, or rolls to the full base, on a device that fails from this call on.
fn write(
    rt: &impl Abort,
    alloc: Global,
    rolls: bool,
    call: u64,
) -> Result<(MemDisk, Result<(), ManifestFault>), Fail> {
    let mut disk = with_batches(rt, alloc, 1, 1, &[&EMPTY])?;
    let mut place = loaded(rt, alloc, &mut disk)?.manifest;
    let first = disk.clock().saturating_add(call);
    disk.fail_from(first);
    let batch = Batch::of(alloc, if rolls { &FULL } else { &CREATE })?;
    let len = disk.bytes().len() as u64;
    assert!(rt; place.layout.size() <= len);
    let answer = if rolls {
        place.roll(&mut disk, &batch)
    } else {
        place.log(&mut disk, &batch)
    };
    Ok((disk, answer))
}

/// The sequence and how many stores there are, after the device stopped.
fn stopped(
    rt: &impl Abort,
    alloc: Global,
    rolls: bool,
    call: u64,
    fill: Fill,
) -> Result<(u64, usize), Fail> {
    let (disk, _) = write(rt, alloc, rolls, call)?;
    let mut disk = disk.stopped(alloc, fill)?;
    let found = loaded(rt, alloc, &mut disk)?;
    Ok((found.manifest.sequence(), found.base.stores.len()))
}

/// Whether the old and the new metadata came up, over all stops.
fn outcomes(
    rt: &impl Abort,
    alloc: Global,
    rolls: bool,
    new: (u64, usize),
) -> Result<[bool; 2], Fail> {
    let mut seen = [false, false];
    for call in 0..11 {
        for fill in &FILLS {
            let found = stopped(rt, alloc, rolls, call, *fill)?;
            assert!(rt; found == (1, 0) || found == new);
            seen[0] = seen[0] || found == (1, 0);
            seen[1] = seen[1] || found == new;
        }
    }
    Ok(seen)
}

/// What pending ranges hold where the device stops.
static FILLS: [Fill; 5] = [
    Fill::Old,
    Fill::New,
    Fill::Torn,
    Fill::Byte(0),
    Fill::Byte(79),
];

#[test]
fn a_stop_within_an_entry_leaves_the_old_manifest_or_the_new_one(
    rt: HostRuntime,
) -> Result<(), Fail> {
    let seen = outcomes(&rt, rt.alloc(), false, (1, 1))?;
    assert_eq!(rt; seen, [true, true]);
    Ok(())
}

#[test]
fn a_stop_within_a_roll_leaves_the_old_manifest_or_the_new_one(
    rt: HostRuntime,
) -> Result<(), Fail> {
    let seen = outcomes(&rt, rt.alloc(), true, (2, 1))?;
    assert_eq!(rt; seen, [true, true]);
    Ok(())
}

#[test]
fn an_entry_and_a_roll_succeed(rt: HostRuntime) -> Result<(), Fail> {
    for rolls in [false, true] {
        let (mut disk, answer) = write(&rt, rt.alloc(), rolls, 1_000)?;
        assert_eq!(rt; answer, Ok(()));
        let found = loaded(&rt, rt.alloc(), &mut disk)?;
        assert_eq!(rt; found.base.stores.len(), 1);
    }
    Ok(())
}
