//! What a whole device stores, and where it is refused.
use crate::device::{CREATE, EMPTY, FULL, SIZE, fill, layout, with_batches};
use hse_rows::StoreName;
use media_disk::{Disk, MemDisk};
use recovery::{OpenFault, Recovered, Region, recover};
use std::alloc::Global;
use std::process::Abort;
use std::test::Fail;

/// A batch of the log: commit 2 puts the value `v` at the key `k` of store 1.
pub(crate) const PUT: [u8; 33] = [
    0, 0, 0, 1, 0, 0, 0, 0, 0, 0, 0, 2, 0, 0, 0, 1, // one commit, number 2, one change
    1, 0, 0, 0, 0, 0, 0, 0, 1, 0, 1, 0x6B, 0, 0, 0, 1, 0x76, // put, store 1, key, value
];

/// Where the log's segment 1 begins.
const SEGMENT: usize = 200_704;

/// The bytes of a device with a superblock, these entries of its manifest and these batches of its
/// log.
pub(crate) fn device(
    rt: &impl Abort,
    alloc: Global,
    entries: &[&[u8]],
    log: &[&[u8]],
) -> Result<Vec<u8>, Fail> {
    let mut disk = with_batches(rt, alloc, 1, 1, entries)?;
    let layout = layout(rt);
    fill(rt, alloc, &mut disk, layout.segment(1), 1, log)?;
    let mut bytes = layout.superblock(alloc)?;
    assert!(rt; bytes.len() == 4_096);
    bytes[0] = 0x4F;
    let Some(rest) = disk.bytes().get(4_096..) else {
        return Err("the device is too short".into());
    };
    bytes.extend_from_slice(rest)?;
    Ok(bytes)
}

/// The bytes of a device with the store 1 and commit 2.
pub(crate) fn formed(rt: &impl Abort, alloc: Global) -> Result<Vec<u8>, Fail> {
    device(rt, alloc, &[&EMPTY, &CREATE], &[&PUT])
}

/// What the device of these bytes stores, one of them changed.
fn changed(
    alloc: Global,
    bytes: &[u8],
    place: usize,
    byte: u8,
) -> Result<Result<Recovered, OpenFault>, Fail> {
    let mut bytes = bytes.to_vec(alloc)?;
    let Some(at) = bytes.get_mut(place) else {
        return Err("no such place".into());
    };
    *at = byte;
    let mut disk = MemDisk::of(alloc, bytes);
    Ok(recover(alloc, &mut disk))
}

#[test]
fn a_formed_device_is_recovered(rt: HostRuntime) -> Result<(), Fail> {
    let alloc = rt.alloc();
    let mut disk = MemDisk::of(alloc, device(&rt, alloc, &[&EMPTY, &CREATE], &[&PUT])?);
    let found = recover(alloc, &mut disk)?;
    assert_eq!(rt; found.number, 2);
    assert_eq!(rt; found.layout, layout(&rt));
    assert_eq!(rt; found.manifest.sequence(), 1);
    assert_eq!(rt; found.base.stores.len(), 1);
    assert_eq!(rt; found.log.sequence, 1);
    let name = StoreName::new(alloc, b"s")?;
    assert_eq!(rt; found.view.get(&name, b"k"), Ok(Some(b"v".as_slice())));
    assert_eq!(rt; found.log.charges, 61);
    assert_eq!(rt; found.log.tail.place, 47);
    assert_eq!(rt; found.moment, 1);
    Ok(())
}

#[test]
fn taken_numbers_count_where_no_number_is_free_below_them(rt: HostRuntime) -> Result<(), Fail> {
    let alloc = rt.alloc();
    let mut disk = MemDisk::of(alloc, device(&rt, alloc, &[&FULL], &[&PUT])?);
    assert_eq!(rt; recover(alloc, &mut disk)?.number, 4);
    let mut disk = MemDisk::of(alloc, device(&rt, alloc, &[&FULL], &[])?);
    let fault = recover(alloc, &mut disk).err();
    assert_eq!(rt; fault, Some(OpenFault::NotFormed(Region::Manifest(1), 0)));
    Ok(())
}

/// A byte of the device that is changed, what it becomes, and the part and place that are refused.
static PLACES: [(usize, u8, Region, u64); 11] = [
    (0, 0, Region::Super, 0),
    (17, 5, Region::Super, 4_096), // another size
    (69_632, 0, Region::Manifest(0), 0), // the head of half 1
    (69_640, 2, Region::Manifest(1), 1), // a sequence that it may not have
    (69_646, 9, Region::Manifest(1), 14), // the kind of the base
    (SEGMENT, 0, Region::Log(1), 0), // the head of the segment
    (SEGMENT + 8, 5, Region::Log(1), 0), // another sequence
    (SEGMENT + 13, 0xFF, Region::Log(1), 10), // bytes are left over behind the commits
    (SEGMENT + 25, 1, Region::Log(1), 18), // a taken number
    (SEGMENT + 25, 3, Region::Log(1), 18), // not the next number
    (SEGMENT + 30, 4, Region::Log(1), 30), // an unknown kind
];

#[test]
fn a_refused_field_has_its_part_and_place(rt: HostRuntime) -> Result<(), Fail> {
    let alloc = rt.alloc();
    let bytes = device(&rt, alloc, &[&EMPTY, &CREATE], &[&PUT])?;
    for (place, byte, region, want) in &PLACES {
        let fault = changed(alloc, &bytes, *place, *byte)?.err();
        assert_eq!(rt;
            (place, fault),
            (place, Some(OpenFault::NotFormed(*region, *want)))
        );
    }
    let fault = changed(alloc, &bytes, 12, 7)?.err();
    assert_eq!(rt; fault, Some(OpenFault::Version(7)));
    Ok(())
}

/// The size of a device that is cut off, and the place of the superblock that is refused.
static CUTS: [(usize, u64); 8] = [
    (0, 0),
    (1, 1),
    (4_095, 4_095),
    (4_096, 4_096),
    (69_700, 4_096),
    (SEGMENT, 4_096),
    (SEGMENT + 47, 4_096),
    (SIZE - 1, 4_096),
];

#[test]
fn a_device_that_is_cut_off_is_refused_at_its_size(rt: HostRuntime) -> Result<(), Fail> {
    let alloc = rt.alloc();
    let bytes = device(&rt, alloc, &[&EMPTY, &CREATE], &[&PUT])?;
    for (size, want) in &CUTS {
        let Some(front) = bytes.get(..*size) else {
            return Err("no such size".into());
        };
        let mut disk = MemDisk::of(alloc, front.to_vec(alloc)?);
        let fault = recover(alloc, &mut disk).err();
        assert_eq!(rt; fault, Some(OpenFault::NotFormed(Region::Super, *want)));
    }
    Ok(())
}
