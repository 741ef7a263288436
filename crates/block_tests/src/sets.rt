//! Sets of blocks, opened, searched, and changed at fields.
use crate::values::SLOT;
use hse_rows::{ChangeRef, RowSet};
use kvset::{Block, Kvset, SetFault, ValuePlace, open_over, open_set};
use std::alloc::Global;
use std::process::Abort;
use std::test::Fail;

/// The slots of the blocks.
const PREFIXES: u32 = 7;

const FIRST: u32 = 3;

const SECOND: u32 = 5;

const VALUES: u32 = 9;

const OTHERS: u32 = 11;

/// The prefixes `a`, of number 5, and `bc`, of number 7.
static PREFIX_BLOCK: [u8; 37] = [
    0x50, 0, 0, 0, 0, 0, 0, 37, 0, 0, 0, 2, 0, 0, 0, 0, 0, 0, 0, 0, 0, 0, 0, 5, 1, b'a', 0, 0, 0,
    0, 0, 0, 0, 7, 2, b'b', b'c',
];

/// The values `v` and none.
static VALUE_BLOCK: [u8; 25] = [
    0x56, 0, 0, 0, 0, 0, 0, 25, 0, 0, 0, 2, 0, 0, 0, 0, 0, 0, 0, 1, b'v', 0, 0, 0, 0,
];

/// The used bytes of blocks of one page: a put of the key `b` with the value `v` and a deletion of
/// `d`, and a put of `f` without a byte and a deletion of `h`.
static FIRST_KEYS: [u8; 54] = [
    0x4B, 0, 0, 0, 0, 0, 0x10, 0x14, 0, 0, 0, 2, 0, 0, 0, 1, 0, 2, 1, 0, 0, 0, 0, 0, 0, 0, 1, 0, 1,
    b'b', 0, 0, 0, 0, 0, 0, 0, 16, 0, 0, 0, 1, 2, 0, 0, 0, 0, 0, 0, 0, 2, 0, 1, b'd',
];

static SECOND_KEYS: [u8; 54] = [
    0x4B, 0, 0, 0, 0, 0, 0x10, 0x14, 0, 0, 0, 2, 0, 0, 0, 1, 0, 2, 1, 0, 0, 0, 0, 0, 0, 0, 3, 0, 1,
    b'f', 0, 0, 0, 0, 0, 0, 0, 21, 0, 0, 0, 0, 2, 0, 0, 0, 0, 0, 0, 0, 4, 0, 1, b'h',
];

/// Another byte at a place of a slot.
#[derive(Clone, Copy)]
struct Change {
    slot: u32,
    at: usize,
    byte: u8,
}

/// The block of a slot with so many bytes, zeros behind the used ones.
fn block(
    alloc: Global,
    slot: u32,
    used: &[u8],
    size: usize,
    change: Change,
) -> Result<Vec<Block>, Fail> {
    let mut bytes = Vec::from_slice(alloc, used)?;
    bytes.resize(size, 0)?;
    if slot == change.slot {
        if let Some(here) = bytes.get_mut(change.at) {
            *here = change.byte;
        }
    }
    let mut blocks = Vec::new(alloc);
    blocks.push(Block { slot, bytes })?;
    Ok(blocks)
}

/// The set of these blocks with a change.
fn opened(alloc: Global, change: Change) -> Result<Result<Kvset, SetFault>, Fail> {
    let prefixes = block(alloc, PREFIXES, &PREFIX_BLOCK, 37, change)?;
    let values = block(alloc, VALUES, &VALUE_BLOCK, 25, change)?;
    let mut keys = block(alloc, FIRST, &FIRST_KEYS, 4_116, change)?;
    let mut more = block(alloc, SECOND, &SECOND_KEYS, 4_116, change)?;
    keys.append(&mut more)?;
    Ok(open_set(alloc, SLOT, prefixes, keys, values))
}

/// A slot, a place, another byte there, and where the slot is then damaged.
static FIELDS: [(u32, usize, u8, u64); 7] = [
    (PREFIXES, 3, 1, 3),
    (PREFIXES, 25, b'c', 26),
    (FIRST, 11, 3, 8),
    (FIRST, 18, 3, 18),
    (SECOND, 29, b'd', 18),
    (SECOND, 28, 0, 18),
    (VALUES, 19, 6, 20),
];

/// The same of the values that keys name, each of which is refused at the number of its block.
static NAMES: [(u32, usize, u8); 6] = [
    (FIRST, 33, 1),
    (FIRST, 37, 17),
    (FIRST, 37, 21),
    (FIRST, 41, 2),
    (SECOND, 37, 16),
    (SECOND, 41, 3),
];

/// The slot and the place that are refused with another byte in a slot.
fn damage(alloc: Global, change: Change) -> Result<Option<(u32, u64)>, Fail> {
    match opened(alloc, change)? {
        Err(SetFault::Damaged(slot, place)) => Ok(Some((slot, place))),
        _ => Ok(None),
    }
}

#[test]
fn each_field_is_refused_in_its_slot(rt: HostRuntime) -> Result<(), Fail> {
    for (slot, at, byte, place) in FIELDS {
        let found = damage(rt.alloc(), Change { slot, at, byte })?;
        assert!(&rt; found == Some((slot, place)));
    }
    for (slot, at, byte) in NAMES {
        let found = damage(rt.alloc(), Change { slot, at, byte })?;
        assert!(&rt; found == Some((slot, 30)));
    }
    Ok(())
}

/// The value of a key's put.
fn value_of<'s>(set: &'s Kvset, key: &[u8]) -> Option<&'s [u8]> {
    match set.find(key)?.change {
        ChangeRef::Put(_, value) => Some(value),
        _ => None,
    }
}

/// No change.
const WHOLE: Change = Change {
    slot: 0,
    at: 0,
    byte: 0,
};

/// Keys, and the numbers of their rows.
static NUMBERS: [(&[u8], Option<u64>); 5] = [
    (b"a", None),
    (b"b", Some(1)),
    (b"d", Some(2)),
    (b"h", Some(4)),
    (b"i", None),
];

/// The number of a key's row.
fn number_of(set: &Kvset, key: &[u8]) -> Option<u64> {
    match set.find(key) {
        Some(row) => Some(row.number),
        None => None,
    }
}

#[test]
fn rows_are_lent_from_their_blocks(rt: HostRuntime) -> Result<(), Fail> {
    let Ok(set) = opened(rt.alloc(), WHOLE)? else {
        assert!(&rt; false);
        return Ok(());
    };
    assert_eq!(&rt; set.len(), 6);
    for (key, number) in &NUMBERS {
        assert!(&rt; number_of(&set, key) == *number);
    }
    assert_eq!(&rt; set.covered(b"ab"), Some(5));
    assert_eq!(&rt; set.place(b"c"), 3);
    assert_eq!(&rt; set.place(b"i"), 6);
    assert!(&rt; set.slots() == [PREFIXES, FIRST, SECOND, VALUES].as_slice());
    assert!(&rt; set.shape() == (1, 2, 1));
    Ok(())
}

#[test]
fn a_put_has_the_value_at_its_place(rt: HostRuntime) -> Result<(), Fail> {
    let Ok(set) = opened(rt.alloc(), WHOLE)? else {
        assert!(&rt; false);
        return Ok(());
    };
    let place = ValuePlace {
        block: 0,
        offset: 21,
        len: 0,
    };
    if set.len() == 6 {
        assert!(&rt; set.row(0).change == ChangeRef::PDel(b"a"));
        assert!(&rt; set.row(2).change == ChangeRef::Put(b"b", b"v"));
        assert!(&rt; set.row(4).change == ChangeRef::Put(b"f", b""));
        assert!(&rt; set.value_place(4) == Some(place));
        assert!(&rt; set.value_place(5).is_none());
    }
    Ok(())
}

/// A set of no row, whose first value is `w`.
fn others(alloc: Global) -> Result<Result<Kvset, SetFault>, Fail> {
    let change = Change {
        slot: OTHERS,
        at: 20,
        byte: b'w',
    };
    let values = block(alloc, OTHERS, &VALUE_BLOCK, 25, change)?;
    Ok(open_set(alloc, SLOT, Vec::new(alloc), Vec::new(alloc), values))
}

/// The first block of keys over the values of both sets; the value of its put is in this block of
/// theirs.
fn over(alloc: Global, byte: u8) -> Result<Result<Kvset, SetFault>, Fail> {
    let Ok(newer) = opened(alloc, WHOLE)? else {
        return Ok(Err(SetFault::NoMemory));
    };
    let Ok(older) = others(alloc)? else {
        return Ok(Err(SetFault::NoMemory));
    };
    let change = Change {
        slot: FIRST,
        at: 33,
        byte,
    };
    let prefixes = block(alloc, PREFIXES, &PREFIX_BLOCK, 37, change)?;
    let keys = block(alloc, FIRST, &FIRST_KEYS, 4_116, change)?;
    Ok(open_over(alloc, prefixes, keys, &[&newer, &older]))
}

/// A block of values, the value of the put there, and where the slot of its key is damaged.
static OVER: [(u8, Option<&[u8]>, u64); 3] = [
    (0, Some(b"v"), 0),
    (1, Some(b"w"), 0),
    (2, None, 30),
];

#[test]
fn values_of_open_sets_are_shared(rt: HostRuntime) -> Result<(), Fail> {
    for (byte, value, place) in &OVER {
        match over(rt.alloc(), *byte)? {
            Ok(set) => {
                assert!(&rt; set.slots() == [PREFIXES, FIRST, VALUES, OTHERS].as_slice());
                assert!(&rt; set.shape() == (1, 1, 2));
                assert!(&rt; value_of(&set, b"b") == *value);
            }
            Err(fault) => {
                assert!(&rt; value.is_none());
                assert!(&rt; fault == SetFault::Damaged(FIRST, *place));
            }
        }
    }
    Ok(())
}
