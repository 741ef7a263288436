//! Blocks of prefix deletes, written, read, and changed at each field.
ghost use Rattle.std.specs.Prelude.{◌<◌};

use hse_rows::Prefix;
use prefix_delete::{PrefixBlockFault, PrefixList};
use std::alloc::Global;
use std::process::Abort;
use std::test::Fail;

/// The block of the prefixes `a`, of number 5, and `bc`, of number 7.
static BLOCK: [u8; 37] = [
    0x50, 0, 0, 0, 0, 0, 0, 37, 0, 0, 0, 2, 0, 0, 0, 0, 0, 0, 0, 0, 0, 0, 0, 5, 1, b'a', 0, 0, 0,
    0, 0, 0, 0, 7, 2, b'b', b'c',
];

/// Where that block is damaged with another byte at a place.
pub(crate) fn damage(alloc: Global, at: usize, byte: u8) -> Result<Option<u64>, Fail>
    requires { at < 37 }
{
    let mut bytes = Vec::new(alloc);
    bytes.extend_from_slice(&BLOCK[..at])?;
    bytes.push(byte)?;
    bytes.extend_from_slice(&BLOCK[at + 1..])?;
    let mut list = PrefixList::empty(alloc);
    match list.read_block(&bytes) {
        Err(PrefixBlockFault::Damaged(place)) => Ok(Some(place)),
        _ => Ok(None),
    }
}

#[test]
fn a_block_is_written_and_read(rt: HostRuntime) -> Result<(), Fail> {
    let alloc = rt.alloc();
    let mut list = PrefixList::empty(alloc);
    list.add(Prefix::new(alloc, b"bc", 2)?, 7)?;
    list.add(Prefix::new(alloc, b"a", 2)?, 5)?;
    let (bytes, next) = list.to_block(alloc, 0, 65_536)?;
    assert_eq!(&rt; next, 2);
    assert!(&rt; bytes.as_slice() == BLOCK.as_slice());
    let mut read = PrefixList::empty(alloc);
    assert_eq!(&rt; read.read_block(&bytes), Ok(()));
    assert_eq!(&rt; read.len(), 2);
    assert_eq!(&rt; read.covers(b"ab"), Some(5));
    assert_eq!(&rt; read.covers(b"bcd"), Some(7));
    assert_eq!(&rt; read.covers(b"b"), None);
    let again = read.read_block(&bytes);
    assert_eq!(&rt; again, Err(PrefixBlockFault::Damaged(16)));
    assert_eq!(&rt; read.len(), 2);
    Ok(())
}
