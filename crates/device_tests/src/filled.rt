//! A device whose manifest rolls at its next entry.
use crate::device::{CREATE, DROP, EMPTY};
use crate::recovers::device;
use std::alloc::Global;
use std::process::Abort;
use std::test::Fail;

/// Where the first byte of half 1 of the manifest is.
const HALF: usize = 69_632;

/// How many bytes it has.
const HALF_SIZE: usize = 65_536;

/// Puts a batch of the manifest behind the others.
fn put(rt: &impl Abort, into: &mut Vec<u8>, payload: &[u8]) -> Result<(), Fail> {
    assert!(rt; payload.len() < HALF_SIZE);
    into.push(0x4F)?;
    into.extend_from_slice(&(payload.len() as u32).to_be_bytes())?;
    into.extend_from_slice(payload)?;
    Ok(())
}

/// How many runs of taken numbers the full device's base has, each as long as a run may be.
const RUNS: u32 = 8_000;

/// The last of these numbers.
pub(crate) const TAKEN: u64 = 34_359_738_360_000;

/// A base with these runs and no store.
fn long_base(alloc: Global) -> Result<Vec<u8>, Fail> {
    let mut base = vec![in alloc; 6]?;
    base.extend_from_slice(&0u64.to_be_bytes())?;
    base.extend_from_slice(&1u64.to_be_bytes())?;
    base.extend_from_slice(&RUNS.to_be_bytes())?;
    for _ in 0..RUNS {
        base.extend_from_slice(&[0, 0, 0, 0, 0xFF, 0xFF, 0xFF, 0xFF])?;
    }
    base.extend_from_slice(&[0, 0, 0, 0])?;
    Ok(base)
}

/// Puts creations and drops of the store `s` behind the others.
fn put_rounds(rt: &impl Abort, into: &mut Vec<u8>) -> Result<(), Fail> {
    for round in 0..37u64 {
        let created = (TAKEN + 2 * round + 1).to_be_bytes();
        let dropped = (TAKEN + 2 * round + 2).to_be_bytes();
        let mut create = CREATE;
        create[1..9].copy_from_slice(&created);
        put(rt, into, &create)?;
        let mut drop = DROP;
        drop[1..9].copy_from_slice(&dropped);
        drop[9..17].copy_from_slice(&created);
        put(rt, into, &drop)?;
    }
    Ok(())
}

/// The bytes of a device whose half in force has no room for one more entry, though another half
/// has it for the base.
pub(crate) fn full(rt: &impl Abort, alloc: Global) -> Result<Vec<u8>, Fail> {
    let bytes = device(rt, alloc, &[&EMPTY], &[])?;
    let Some(front) = bytes.get(..HALF) else {
        return Err("the device is too short".into());
    };
    let Some(behind) = bytes.get(HALF + HALF_SIZE..) else {
        return Err("the device is too short".into());
    };
    let mut all = front.to_vec(alloc)?;
    all.extend_from_slice(&[0x4F, 0, 0, 0, 0, 0, 0, 0, 1])?;
    put(rt, &mut all, &long_base(alloc)?)?;
    put_rounds(rt, &mut all)?;
    all.resize(HALF + HALF_SIZE, 0)?;
    all.extend_from_slice(behind)?;
    Ok(all)
}
