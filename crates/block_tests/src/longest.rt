//! Values as long as a slot allows, and a byte longer.
use crate::values::{SLOT, built};
use hse_fields::Damaged;
use kvset::{Block, SetFault, open_set};
use std::alloc::Global;
use std::process::Abort;
use std::test::Fail;
use vblock::open_value_block;

/// The slot of the block.
const NINTH: u32 = 9;

/// The most bytes of a value in a slot.
const LONGEST: usize = 65_472;

/// The bytes of a block with a value of so many bytes and an empty one; none where they do not fit.
fn long(alloc: Global, len: usize) -> Result<Option<Vec<u8>>, Fail> {
    let value = Vec::from_elem(alloc, 7, len)?;
    match built(alloc, &value, b"")? {
        Some((_, _, bytes)) => Ok(Some(bytes)),
        None => Ok(None),
    }
}

/// Where the block of a value of so many bytes is damaged in slots of this size, if it is.
fn damage(alloc: Global, slot: u64, len: usize) -> Result<Option<u64>, Fail> {
    let Some(bytes) = long(alloc, len)? else {
        return Ok(Some(0));
    };
    match open_value_block(slot, bytes) {
        Ok(_) => Ok(None),
        Err(Damaged(place)) => Ok(Some(place)),
    }
}

/// What is wrong with a set of a block with a value of so many bytes, if anything is.
fn fault(alloc: Global, len: usize) -> Result<Option<SetFault>, Fail> {
    let Some(bytes) = long(alloc, len)? else {
        return Ok(Some(SetFault::NoMemory));
    };
    let mut values = Vec::new(alloc);
    values.push(Block { slot: NINTH, bytes })?;
    let none = Vec::new(alloc);
    Ok(open_set(alloc, SLOT, none, Vec::new(alloc), values).err())
}

#[test]
fn a_value_leaves_64_bytes_of_its_slot(rt: HostRuntime) -> Result<(), Fail> {
    let alloc = rt.alloc();
    assert_eq!(&rt; damage(alloc, SLOT, LONGEST)?, None);
    assert_eq!(&rt; damage(alloc, SLOT, LONGEST + 1)?, Some(16));
    assert_eq!(&rt; damage(alloc, 2 * SLOT, LONGEST + 1)?, None);
    Ok(())
}

#[test]
fn a_value_of_a_set_leaves_64_bytes_of_its_slot(rt: HostRuntime) -> Result<(), Fail> {
    let alloc = rt.alloc();
    assert!(&rt; fault(alloc, LONGEST)?.is_none());
    assert!(&rt; fault(alloc, LONGEST + 1)? == Some(SetFault::Damaged(NINTH, 16)));
    Ok(())
}
