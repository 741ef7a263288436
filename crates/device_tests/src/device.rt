//! The devices of the tests, whose manifest is spelled by hand.
ghost use Rattle.std.specs.Prelude.{◌≡◌};
ghost use Rattle.device_layout.specs.Layouts.{IsGood};

use device_layout::{Layout, Params};
use gate_log::{Batch, Region, append, start};
use manifest::{LoadFault, Loaded, load};
use media_disk::MemDisk;
use std::alloc::Global;
use std::process::Abort;
use std::test::Fail;

/// What the devices are made with: the least that there may be, and two stores.
pub(crate) const PARAMS: Params = Params {
    power: 16,
    slots: 4,
    manifest: 65_536,
    log: 65_536,
    stores: 2,
};

/// Their size.
pub(crate) const SIZE: usize = 659_456;

/// The empty base: kind 6, horizon 0, first segment 1, no runs and no stores.
pub(crate) const EMPTY: [u8; 25] = [
    6, 0, 0, 0, 0, 0, 0, 0, 0, 0, 0, 0, 0, 0, 0, 0, 1, 0, 0, 0, 0, 0, 0, 0, 0,
];

/// The creation of number 1: the plain store `s`, with prefixes of 2 bytes.
pub(crate) const CREATE: [u8; 13] = [2, 0, 0, 0, 0, 0, 0, 0, 1, 1, 0x73, 0, 2];

/// The drop of number 2, of that store.
pub(crate) const DROP: [u8; 17] = [3, 0, 0, 0, 0, 0, 0, 0, 2, 0, 0, 0, 0, 0, 0, 0, 1];

/// A base with horizon 1, the taken numbers 3 and 4, and the store `s` of id 1 and prefixes of 2 bytes.
pub(crate) const FULL: [u8; 49] = [
    6, 0, 0, 0, 0, 0, 0, 0, 1, 0, 0, 0, 0, 0, 0, 0, 1, // kind, horizon, first segment
    0, 0, 0, 1, 0, 0, 0, 1, 0, 0, 0, 2, // one run: one number between, two numbers
    0, 0, 0, 1, 0, 0, 0, 0, 0, 0, 0, 1, // one store, id 1
    1, 0x73, 0, 2, 0, 0, 0, 0, // name, mode, prefix length, nodes
];

/// The layout of the devices.
pub(crate) fn layout(rt: &impl Abort) -> Layout
    ensures { IsGood result }
{
    match Layout::of(PARAMS) {
        Some(layout) => layout,
        None => rt.abort(),
    }
}

/// Starts a region with this sequence, and adds these batches.
pub(crate) fn fill(
    rt: &impl Abort,
    alloc: Global,
    disk: &mut MemDisk,
    region: Region,
    sequence: u64,
    payloads: &[&[u8]],
) -> Result<(), Fail> {
    assert!(rt; region.at <= SIZE as u64);
    assert!(rt; region.size <= SIZE as u64);
    assert!(rt; region.size >= 10);
    let len = disk.bytes().len() as u64;
    assert!(rt; region.at + region.size <= len);
    let mut tail = start(disk, &region, sequence)?;
    for payload in payloads {
        assert!(rt; payload.len() < 100);
        let batch = Batch::of(alloc, payload)?;
        let len = disk.bytes().len() as u64;
        assert!(rt; region.at + region.size <= len);
        assert!(rt; tail.place < region.size);
        append(disk, &region, &mut tail, &batch)?;
    }
    Ok(())
}

/// A device whose half has this sequence and these batches.
pub(crate) fn with_batches(
    rt: &impl Abort,
    alloc: Global,
    half: u8,
    sequence: u64,
    payloads: &[&[u8]],
) -> Result<MemDisk, Fail> {
    let mut disk = MemDisk::of(alloc, vec![in alloc; 0; SIZE]?);
    let layout = layout(rt);
    assert!(rt; half < 2);
    fill(rt, alloc, &mut disk, layout.half(half), sequence, payloads)?;
    Ok(disk)
}

/// What the device's manifest says.
pub(crate) fn loaded(
    rt: &impl Abort,
    alloc: Global,
    disk: &mut MemDisk,
) -> Result<Loaded, LoadFault> {
    let layout = layout(rt);
    let len = disk.bytes().len() as u64;
    assert!(rt; layout.size() <= len);
    load(alloc, disk, &layout)
}
