//! New devices, and what is not formatted.
use crate::device::{EMPTY, PARAMS, SIZE, layout};
use crate::recovers::device;
use device_layout::Params;
use media_disk::{Disk, Fill, MemDisk};
use recovery::{FormatFault, format, recover};
use std::alloc::Global;
use std::process::Abort;
use std::test::Fail;

/// A device without bytes.
fn empty(alloc: Global) -> MemDisk {
    MemDisk::of(alloc, Vec::new(alloc))
}

/// How many device calls a formatting makes.
const CALLS: u64 = 20;

/// An empty device that is formatted and fails from this call on.
fn stopped(alloc: Global, call: u64, fill: Fill) -> Result<MemDisk, Fail> {
    let mut disk = empty(alloc);
    disk.fail_from(call);
    let _ = format(alloc, &mut disk, &PARAMS);
    Ok(disk.stopped(alloc, fill)?)
}

/// Whether the device is recovered, and then to the number 0 with no store.
fn is_new(rt: &impl Abort, alloc: Global, disk: &mut MemDisk) -> bool {
    match recover(alloc, disk) {
        Ok(found) => {
            assert!(rt; found.number == 0);
            assert!(rt; found.base.stores.is_empty());
            assert!(rt; found.log.charges == 0);
            true
        }
        Err(_) => false,
    }
}

#[test]
fn a_new_device_has_its_bytes_and_is_recovered(rt: HostRuntime) -> Result<(), Fail> {
    let alloc = rt.alloc();
    let mut disk = empty(alloc);
    assert_eq!(rt; format(alloc, &mut disk, &PARAMS), Ok(SIZE as u64));
    assert_eq!(rt; disk.clock(), CALLS);
    let want = device(&rt, alloc, &[&EMPTY], &[])?;
    assert!(rt; disk.bytes() == want.as_slice());
    let found = recover(alloc, &mut disk)?;
    assert_eq!(rt; found.number, 0);
    assert_eq!(rt; found.layout, layout(&rt));
    assert_eq!(rt; found.manifest.tail.place, 39);
    assert_eq!(rt; found.log.tail.place, 9);
    assert!(rt; is_new(&rt, alloc, &mut disk));
    Ok(())
}

#[test]
fn a_device_that_holds_data_is_not_touched(rt: HostRuntime) -> Result<(), Fail> {
    let alloc = rt.alloc();
    let mut disk = empty(alloc);
    assert_eq!(rt; format(alloc, &mut disk, &PARAMS), Ok(SIZE as u64));
    let fault = format(alloc, &mut disk, &PARAMS);
    assert_eq!(rt; fault, Err(FormatFault::NotEmpty(SIZE as u64)));
    assert!(rt; is_new(&rt, alloc, &mut disk));
    let mut disk = MemDisk::of(alloc, vec![in alloc; 7; 1]?);
    let fault = format(alloc, &mut disk, &PARAMS);
    assert_eq!(rt; fault, Err(FormatFault::NotEmpty(1)));
    assert!(rt; disk.bytes() == [7].as_slice());
    Ok(())
}

#[test]
fn bad_sizes_are_refused_before_any_call(rt: HostRuntime) -> Result<(), Fail> {
    let alloc = rt.alloc();
    let mut disk = empty(alloc);
    let bad = Params {
        stores: 0,
        ..PARAMS
    };
    assert_eq!(rt; format(alloc, &mut disk, &bad), Err(FormatFault::BadParams));
    assert_eq!(rt; disk.clock(), 0);
    Ok(())
}

#[test]
fn a_stop_leaves_a_new_device_or_a_refused_one(rt: HostRuntime) -> Result<(), Fail> {
    let alloc = rt.alloc();
    let mut seen = [false, false];
    for call in 0..CALLS {
        for fill in &[Fill::Old, Fill::New, Fill::Torn, Fill::Byte(79)] {
            let mut disk = stopped(alloc, call, *fill)?;
            if is_new(&rt, alloc, &mut disk) {
                seen[0] = true;
                assert!(rt; call >= CALLS - 2);
            } else {
                seen[1] = true;
            }
        }
    }
    assert_eq!(rt; seen, [true, true]);
    Ok(())
}
