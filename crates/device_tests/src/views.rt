//! The view that an opening gives.
use crate::device::{CREATE, EMPTY};
use crate::recovers::device;
use hse_rows::StoreName;
use media_disk::MemDisk;
use recovery::{Recovered, recover};
use std::alloc::Global;
use std::process::Abort;
use std::test::Fail;

/// The creation of number 2: the plain store `t`, with prefixes of 2 bytes.
pub(crate) const CREATE_T: [u8; 13] = [2, 0, 0, 0, 0, 0, 0, 0, 2, 1, 0x74, 0, 2];

/// Commit 3 puts `v` at the key `k` of store 1, and `w` at the key `k` of store 2.
pub(crate) const BOTH: [u8; 50] = [
    0, 0, 0, 1, 0, 0, 0, 0, 0, 0, 0, 3, 0, 0, 0, 2, // one commit, number 3, two changes
    1, 0, 0, 0, 0, 0, 0, 0, 1, 0, 1, 0x6B, 0, 0, 0, 1, 0x76, // put, store 1
    1, 0, 0, 0, 0, 0, 0, 0, 2, 0, 1, 0x6B, 0, 0, 0, 1, 0x77, // put, store 2
];

/// Commit 4 deletes the prefix `k` of store 1.
pub(crate) const PDEL: [u8; 28] = [
    0, 0, 0, 1, 0, 0, 0, 0, 0, 0, 0, 4, 0, 0, 0, 1, // one commit, number 4, one change
    3, 0, 0, 0, 0, 0, 0, 0, 1, 0, 1, 0x6B, // prefix delete
];

/// What a device of the two stores with these batches of its log stores.
fn opened(rt: &impl Abort, alloc: Global, log: &[&[u8]]) -> Result<Recovered, Fail> {
    let entries: [&[u8]; 3] = [&EMPTY, &CREATE, &CREATE_T];
    let mut disk = MemDisk::of(alloc, device(rt, alloc, &entries, log)?);
    Ok(recover(alloc, &mut disk)?)
}

/// Whether the key `k` of the store of this name has this value.
pub(crate) fn has(
    alloc: Global,
    found: &Recovered,
    name: &[u8],
    want: Option<&[u8]>,
) -> Result<bool, Fail> {
    let name = StoreName::new(alloc, name)?;
    match found.view.get(&name, b"k") {
        Ok(value) => Ok(value == want),
        Err(_) => Ok(false),
    }
}

#[test]
fn a_commit_is_in_the_view_of_each_of_its_stores(rt: HostRuntime) -> Result<(), Fail> {
    let alloc = rt.alloc();
    let found = opened(&rt, alloc, &[&BOTH])?;
    assert_eq!(rt; found.view.number(), 3);
    assert!(rt; has(alloc, &found, b"s", Some(b"v".as_slice()))?);
    assert!(rt; has(alloc, &found, b"t", Some(b"w".as_slice()))?);
    Ok(())
}

#[test]
fn a_prefix_delete_is_in_the_view_of_its_store_alone(rt: HostRuntime) -> Result<(), Fail> {
    let alloc = rt.alloc();
    let found = opened(&rt, alloc, &[&BOTH, &PDEL])?;
    assert_eq!(rt; found.view.number(), 4);
    assert!(rt; has(alloc, &found, b"s", None)?);
    assert!(rt; has(alloc, &found, b"t", Some(b"w".as_slice()))?);
    Ok(())
}
