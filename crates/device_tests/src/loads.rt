//! What a device's manifest says, and where it is refused.
use crate::device::{CREATE, DROP, EMPTY, FULL, PARAMS, SIZE, layout, loaded, with_batches};
use device_layout::{Layout, Params};
use hse_rows::{Mode, StoreId};
use manifest::{LoadFault, Loaded};
use media_disk::MemDisk;
use std::alloc::Global;
use std::process::Abort;
use std::test::Fail;

/// The device of half 1 with these batches, where the byte at this place is another one, read.
fn damaged(
    rt: &impl Abort,
    alloc: Global,
    payload: &[u8],
    place: usize,
    byte: u8,
) -> Result<Result<Loaded, LoadFault>, Fail> {
    assert!(rt; place < 100);
    let disk = with_batches(rt, alloc, 1, 1, &[payload])?;
    let mut bytes = disk.bytes().to_vec(alloc)?;
    let Some(at) = bytes.get_mut(4_096 + 65_536 + place) else {
        return Err("no such place".into());
    };
    *at = byte;
    let mut disk = MemDisk::of(alloc, bytes);
    Ok(loaded(rt, alloc, &mut disk))
}

/// The half and the place at which it is refused.
fn refused(found: Result<Loaded, LoadFault>) -> Option<(u8, u64)> {
    match found {
        Err(LoadFault::Damaged(half, place)) => Some((half, place)),
        _ => None,
    }
}

#[test]
fn a_device_has_this_size_and_its_parts_lie_there(rt: HostRuntime) -> Result<(), Fail> {
    let layout = layout(&rt);
    assert_eq!(rt; layout.size(), SIZE as u64);
    assert_eq!(rt; layout.half(1).at, 69_632);
    assert_eq!(rt; layout.segment(3).at, 331_776);
    assert_eq!(rt; layout.slots_at(), 397_312);
    let large = Params {
        stores: 4_097,
        ..PARAMS
    };
    assert!(rt; Layout::of(large).is_none());
    let most = Params {
        manifest: 67_108_864,
        stores: 4_096,
        ..PARAMS
    };
    assert!(rt; Layout::of(most).is_some());
    let large = Params {
        manifest: 67_112_960,
        ..PARAMS
    };
    assert!(rt; Layout::of(large).is_none());
    Ok(())
}

#[test]
fn an_empty_base_says_that_there_is_nothing(rt: HostRuntime) -> Result<(), Fail> {
    let alloc = rt.alloc();
    let mut disk = with_batches(&rt, alloc, 1, 1, &[&EMPTY])?;
    let found = loaded(&rt, alloc, &mut disk)?;
    assert_eq!(rt; found.manifest.sequence(), 1);
    assert_eq!(rt; found.manifest.tail.place, 39);
    assert_eq!(rt; found.base.first, 1);
    assert!(rt; found.base.stores.is_empty());
    assert!(rt; found.base.taken.is_empty());
    Ok(())
}

#[test]
fn a_creation_and_a_drop_are_done(rt: HostRuntime) -> Result<(), Fail> {
    let alloc = rt.alloc();
    let mut disk = with_batches(&rt, alloc, 0, 2, &[&EMPTY, &CREATE])?;
    let found = loaded(&rt, alloc, &mut disk)?;
    assert_eq!(rt; found.base.stores.len(), 1);
    assert_eq!(rt; found.base.stores[0].id, StoreId(1));
    assert_eq!(rt; found.base.stores[0].name.bytes(), b"s".as_slice());
    assert_eq!(rt; found.base.stores[0].mode, Mode::Plain);
    assert_eq!(rt; found.base.stores[0].prefix, 2);
    let mut disk = with_batches(&rt, alloc, 0, 2, &[&EMPTY, &CREATE, &DROP])?;
    let found = loaded(&rt, alloc, &mut disk)?;
    assert!(rt; found.base.stores.is_empty());
    assert_eq!(rt; found.base.taken.len(), 1);
    assert_eq!(rt; found.base.taken[0].count, 2);
    Ok(())
}

/// A byte of the half that is changed, what it becomes, and the place that is refused. The payload
/// stands from place 14 on.
static PLACES: [(usize, u8, u64); 18] = [
    (0, 0, 0), // the head
    (1, 0x80, 1), // a sequence above the greatest one
    (8, 2, 1), // an even one in half 1
    (9, 0, 0), // the first gate
    (10, 1, 10), // the batch does not lie inside
    (13, 48, 59), // the count of nodes is cut off
    (14, 1, 14), // the kind
    (15, 0x80, 15), // the horizon
    (30, 2, 23), // the first segment
    (42, 0, 39), // a run of no number
    (46, 0, 10), // bytes are left over
    (46, 2, 63), // a second store is cut off
    (54, 2, 47), // an id that is neither up to the horizon nor taken
    (55, 32, 55), // a name that is too long
    (56, 0x20, 56), // a byte that no name has
    (57, 2, 57), // the mode
    (58, 33, 58), // the prefix length
    (62, 1, 59), // a node
];

#[test]
fn a_refused_field_has_its_place(rt: HostRuntime) -> Result<(), Fail> {
    for (place, byte, want) in &PLACES {
        let found = damaged(&rt, rt.alloc(), &FULL, *place, *byte)?;
        let half = if *want == 0 { 0 } else { 1 };
        assert_eq!(rt; (place, refused(found)), (place, Some((half, *want))));
    }
    Ok(())
}
