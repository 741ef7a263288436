//! Blocks of values, built, opened, and changed at each field.
ghost use Rattle.std.specs.Prelude.{◌<◌};

use hse_fields::{BlockFull, Damaged};
use hse_io::NoMemory;
use std::alloc::Global;
use std::process::Abort;
use std::test::Fail;
use vblock::{ValueBlockBuilder, open_value_block};

/// How many bytes a slot has.
pub(crate) const SLOT: u64 = 65_536;

/// The block of the values `v` and none.
static BLOCK: [u8; 25] = [
    0x56, 0, 0, 0, 0, 0, 0, 25, 0, 0, 0, 2, 0, 0, 0, 0, 0, 0, 0, 1, b'v', 0, 0, 0, 0,
];

/// Where that block is damaged with another byte at a place.
pub(crate) fn damage(alloc: Global, at: usize, byte: u8) -> Result<Option<u64>, Fail>
    requires { at < 25 }
{
    let mut bytes = Vec::new(alloc);
    bytes.extend_from_slice(&BLOCK[..at])?;
    bytes.push(byte)?;
    bytes.extend_from_slice(&BLOCK[at + 1..])?;
    match open_value_block(SLOT, bytes) {
        Ok(_) => Ok(None),
        Err(Damaged(place)) => Ok(Some(place)),
    }
}

/// The offsets of two values in a block of a slot, and the block; none where one does not fit.
pub(crate) fn built(
    alloc: Global,
    one: &[u8],
    other: &[u8],
) -> Result<Option<(u32, u32, Vec<u8>)>, NoMemory> {
    let mut builder = ValueBlockBuilder::new(alloc, SLOT)?;
    let Ok(first) = builder.push(one) else {
        return Ok(None);
    };
    let Ok(second) = builder.push(other) else {
        return Ok(None);
    };
    Ok(Some((first, second, builder.finish())))
}

/// What refuses a value a second time in a block of a slot, if anything does.
fn refused(alloc: Global, value: &[u8]) -> Result<Option<BlockFull>, NoMemory> {
    let mut builder = ValueBlockBuilder::new(alloc, SLOT)?;
    let Ok(_) = builder.push(value) else {
        return Ok(None);
    };
    Ok(builder.push(value).err())
}

#[test]
fn values_are_built_and_found(rt: HostRuntime) -> Result<(), Fail> {
    let Some((first, second, bytes)) = built(rt.alloc(), b"v", b"")? else {
        assert!(&rt; false);
        return Ok(());
    };
    assert_eq!(&rt; first, 16);
    assert_eq!(&rt; second, 21);
    assert!(&rt; bytes.as_slice() == BLOCK.as_slice());
    match open_value_block(SLOT, bytes) {
        Err(_) => assert!(&rt; false),
        Ok(block) => {
            assert!(&rt; block.value(16, 1) == Some(b"v".as_slice()));
            assert!(&rt; block.value(21, 0) == Some(b"".as_slice()));
            assert!(&rt; block.value(16, 0).is_none());
            assert!(&rt; block.value(17, 1).is_none());
            assert!(&rt; block.value(25, 0).is_none());
        }
    }
    Ok(())
}

#[test]
fn two_values_of_the_greatest_length_need_two_blocks(rt: HostRuntime) -> Result<(), Fail> {
    let alloc = rt.alloc();
    let value = Vec::from_elem(alloc, 7, 65_472)?;
    let full = BlockFull {
        need: 65_476,
        room: 44,
    };
    assert_eq!(&rt; refused(alloc, &value)?, Some(full));
    Ok(())
}
