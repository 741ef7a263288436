//! Blocks with another byte in a field.
use crate::{prefixes, values};
use std::alloc::Global;
use std::process::Abort;
use std::test::Fail;

/// Which block a byte is changed in.
#[derive(Clone, Copy)]
enum Kind {
    Values,
    Prefixes,
}

use Kind::{Prefixes, Values};

/// A block, a place in it, another byte there, and where the block is then damaged.
static CHANGES: [(Kind, usize, u8, u64); 29] = [
    (Values, 0, 0x4B, 0),
    (Values, 1, 1, 1),
    (Values, 2, 1, 2),
    (Values, 3, 1, 3),
    (Values, 7, 15, 4),
    (Values, 7, 24, 21),
    (Values, 7, 26, 4),
    (Values, 11, 0, 8),
    (Values, 11, 1, 4),
    (Values, 11, 3, 25),
    (Values, 15, 1, 12),
    (Values, 18, 0xFF, 20),
    (Values, 17, 1, 16),
    (Values, 19, 6, 20),
    (Values, 24, 1, 25),
    (Prefixes, 0, 0x56, 0),
    (Prefixes, 1, 1, 1),
    (Prefixes, 2, 1, 2),
    (Prefixes, 3, 1, 3),
    (Prefixes, 7, 15, 4),
    (Prefixes, 7, 38, 4),
    (Prefixes, 11, 0, 8),
    (Prefixes, 11, 1, 4),
    (Prefixes, 15, 1, 12),
    (Prefixes, 24, 0, 24),
    (Prefixes, 24, 33, 24),
    (Prefixes, 25, b'c', 26),
    (Prefixes, 34, 0, 26),
    (Prefixes, 34, 3, 35),
];

/// Where a block is damaged with another byte at a place.
fn damage(alloc: Global, kind: Kind, at: usize, byte: u8) -> Result<Option<u64>, Fail> {
    match kind {
        Values if at < 25 => values::damage(alloc, at, byte),
        Prefixes if at < 37 => prefixes::damage(alloc, at, byte),
        _ => Ok(None),
    }
}

#[test]
fn each_field_is_refused_at_itself(rt: HostRuntime) -> Result<(), Fail> {
    for (kind, at, byte, place) in CHANGES {
        assert_eq!(&rt; damage(rt.alloc(), kind, at, byte)?, Some(place));
    }
    Ok(())
}
