//! Which stores the log of a device may name.
use crate::device::{CREATE, EMPTY, FULL, PARAMS, SIZE, fill, layout};
use crate::recovers::{PUT, device};
use media_disk::MemDisk;
use recovery::{OpenFault, Region, format, recover};
use std::test::Fail;

/// A batch of the log: this commit puts the value `v` at the key `k` of this store.
fn put(number: u8, store: u8) -> [u8; 33] {
    let mut batch = PUT;
    batch[11] = number;
    batch[24] = store;
    batch
}

#[test]
fn a_new_device_whose_log_names_a_store_is_refused(rt: HostRuntime) -> Result<(), Fail> {
    let alloc = rt.alloc();
    let mut disk = MemDisk::of(alloc, Vec::new(alloc));
    assert_eq!(rt; format(alloc, &mut disk, &PARAMS), Ok(SIZE as u64));
    fill(
        &rt,
        alloc,
        &mut disk,
        layout(&rt).segment(1),
        1,
        &[&put(1, 5)],
    )?;
    let fault = recover(alloc, &mut disk).err();
    assert_eq!(rt; fault, Some(OpenFault::NotFormed(Region::Log(1), 0)));
    Ok(())
}

#[test]
fn a_log_names_store_ids_up_to_the_last_number(rt: HostRuntime) -> Result<(), Fail> {
    let alloc = rt.alloc();
    for store in &[1, 2] {
        let bytes = device(&rt, alloc, &[&EMPTY, &CREATE], &[&put(2, *store)])?;
        let found = recover(alloc, &mut MemDisk::of(alloc, bytes))?;
        assert_eq!(rt; found.number, 2);
    }
    let bytes = device(&rt, alloc, &[&EMPTY, &CREATE], &[&put(2, 3)])?;
    let fault = recover(alloc, &mut MemDisk::of(alloc, bytes)).err();
    assert_eq!(rt; fault, Some(OpenFault::NotFormed(Region::Log(1), 0)));
    Ok(())
}

#[test]
fn a_gap_of_taken_numbers_is_refused_before_a_name(rt: HostRuntime) -> Result<(), Fail> {
    let alloc = rt.alloc();
    let mut base = FULL;
    base[24] = 2; // the numbers 4 and 5 are taken, and 3 is free
    let bytes = device(&rt, alloc, &[&base], &[&put(2, 9)])?;
    let fault = recover(alloc, &mut MemDisk::of(alloc, bytes)).err();
    assert_eq!(rt; fault, Some(OpenFault::NotFormed(Region::Manifest(1), 0)));
    Ok(())
}
