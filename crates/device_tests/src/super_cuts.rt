//! Superblocks that are cut off at each byte, with zeros or garbage behind.
use crate::cuts::{Row, cut, garbage, read_only, wanted};
use crate::recovers::formed;
use recovery::{OpenFault, Region};
use std::alloc::Global;
use std::process::Abort;
use std::test::Fail;

/// How many bytes a superblock has.
const BLOCK: usize = 4_096;

/// The version that a block says.
fn version(block: &[u8]) -> u32 {
    match block.get(9..13) {
        Some([first, second, third, last]) => {
            u32::from_be_bytes([*first, *second, *third, *last])
        }
        _ => 0,
    }
}

/// Cuts off the superblock at each of so many bytes, on a device of no more bytes, and finds what the
/// table says, or another version.
fn cut_each(rt: &impl Abort, alloc: Global, behind: &[u8], table: &[Row]) -> Result<(), Fail> {
    let bytes = formed(rt, alloc)?;
    let Some(block) = bytes.get(..BLOCK) else {
        return Err("the device is too short".into());
    };
    for place in 0..BLOCK {
        if place < 64 || place % 512 == 0 {
            let block = cut(alloc, block, place, BLOCK, behind)?;
            let found = read_only(rt, alloc, &block)?.map(|found| found.number);
            let want = match wanted(table, place) {
                Some(want) => want,
                None => Err(OpenFault::Version(version(&block))),
            };
            assert_eq!(rt; (place, found), (place, want));
        }
    }
    Ok(())
}

/// Zeros behind each byte.
static ZEROS: [Row; 8] = [
    (0, 0, Err((Region::Super, 0))), // the gate
    (1, 8, Err((Region::Super, 1))), // the text
    (13, 13, Err((Region::Super, 13))), // the power
    (14, 17, Err((Region::Super, 14))), // no slots
    (18, 23, Err((Region::Super, 18))), // a half of no bytes
    (24, 31, Err((Region::Super, 26))), // a segment of no bytes
    (32, 35, Err((Region::Super, 34))), // no stores
    (36, BLOCK, Err((Region::Super, 4_096))), // a device of another size
];

/// Garbage behind each byte up to the zeros.
static GARBAGE: [Row; 8] = [
    (0, 0, Err((Region::Super, 0))),
    (1, 8, Err((Region::Super, 1))),
    (13, 13, Err((Region::Super, 13))),
    (14, 16, Err((Region::Super, 14))), // too many slots
    (17, 25, Err((Region::Super, 18))), // a half that is too large or no whole blocks
    (26, 33, Err((Region::Super, 26))),
    (34, 34, Err((Region::Super, 34))), // too many stores
    (35, 36, Err((Region::Super, 36))), // a byte behind the sizes
];

#[test]
fn zeros_behind_a_cut_of_a_superblock_are_refused(rt: HostRuntime) -> Result<(), Fail> {
    let alloc = rt.alloc();
    let zeros = vec![in alloc; 0; BLOCK]?;
    cut_each(&rt, alloc, &zeros, &ZEROS)
}

#[test]
fn garbage_behind_a_cut_of_a_superblock_is_refused(rt: HostRuntime) -> Result<(), Fail> {
    let alloc = rt.alloc();
    let garbage = garbage(alloc, 6, BLOCK)?;
    let bytes = formed(&rt, alloc)?;
    let Some(block) = bytes.get(..BLOCK) else {
        return Err("the device is too short".into());
    };
    for place in 0..BLOCK {
        if place < 37 || place % 256 == 0 {
            let block = cut(alloc, block, place, BLOCK, &garbage)?;
            let found = read_only(&rt, alloc, &block)?.map(|found| found.number);
            let want = match wanted(&GARBAGE, place) {
                Some(want) => want,
                None if place < 37 => Err(OpenFault::Version(version(&block))),
                None => Err(OpenFault::NotFormed(Region::Super, place as u64)),
            };
            assert_eq!(rt; (place, found), (place, want));
        }
    }
    Ok(())
}
