//! Blocks of keys, built, opened, searched, and changed at each field.
ghost use Rattle.std.specs.Prelude.{◌<◌, ◌≤◌, length};
ghost use Rattle.hse_rows.specs.writes.Lengths.{longest_key};

use hse_io::NoMemory;
use kblock::{Damaged, KeyBlock, KeyBlockBuilder, KeyEntry, ValuePlace, open_key_block};
use std::alloc::Global;
use std::process::Abort;
use std::test::Fail;

/// The block of a deletion of number 7; none where it does not fit.
fn built(alloc: Global, key: &[u8]) -> Result<Option<Vec<u8>>, NoMemory>
    requires some { 1 ≤ length key.now }
    requires short { length key.now ≤ longest_key }
{
    let mut builder = KeyBlockBuilder::new(alloc, 65_536)?;
    let entry = KeyEntry {
        number: 7,
        key,
        value: None,
    };
    let Ok(_) = builder.push(&entry) else {
        return Ok(None);
    };
    Ok(Some(builder.finish()))
}

/// The beginning of the block of a deletion of the key `k`.
static BEGINNING: [u8; 32] = [
    0x4B, 0, 0, 0, 0, 0, 0x10, 0x14, 0, 0, 0, 1, 0, 0, 0, 1, 0, 1, 2, 0, 0, 0, 0, 0, 0, 0, 7, 0, 1,
    b'k', 0, 0,
];

#[test]
fn a_key_stands_on_a_page(rt: HostRuntime) -> Result<(), Fail> {
    let Some(bytes) = built(rt.alloc(), b"k")? else {
        assert!(&rt; false);
        return Ok(());
    };
    assert_eq!(&rt; bytes.len(), 4_116);
    assert!(&rt; bytes.starts_with(&BEGINNING));
    Ok(())
}

/// The header of a block of two pages with two keys each, `b` and `d`, `f` and `h`.
static HEADER: [u8; 16] = [0x4B, 0, 0, 0, 0, 0, 0x20, 0x18, 0, 0, 0, 4, 0, 0, 0, 2];

/// The used bytes of its pages: a put of number 1 and a deletion of number 2, and two deletions.
static FIRST: [u8; 38] = [
    0, 2, 1, 0, 0, 0, 0, 0, 0, 0, 1, 0, 1, b'b', 0, 0, 0, 3, 0, 0, 0, 16, 0, 0, 0, 5, 2, 0, 0, 0,
    0, 0, 0, 0, 2, 0, 1, b'd',
];

static SECOND: [u8; 26] = [
    0, 2, 2, 0, 0, 0, 0, 0, 0, 0, 3, 0, 1, b'f', 2, 0, 0, 0, 0, 0, 0, 0, 4, 0, 1, b'h',
];

/// The numbers behind its pages.
static NUMBERS: [u8; 8] = [0, 0, 0, 0, 0, 0, 0, 2];

/// That block.
fn two_pages(alloc: Global) -> Result<Vec<u8>, Fail> {
    let mut bytes = Vec::new(alloc);
    bytes.extend_from_slice(&HEADER)?;
    bytes.extend_from_slice(&FIRST)?;
    let zeros = Vec::from_elem(alloc, 0, 4_096 - 38)?;
    bytes.extend_from_slice(&zeros)?;
    bytes.extend_from_slice(&SECOND)?;
    let zeros = Vec::from_elem(alloc, 0, 4_096 - 26)?;
    bytes.extend_from_slice(&zeros)?;
    bytes.extend_from_slice(&NUMBERS)?;
    Ok(bytes)
}

/// Where that block is damaged with another byte at a place.
fn damage(alloc: Global, at: usize, byte: u8) -> Result<Option<u64>, Fail> {
    let mut bytes = two_pages(alloc)?;
    if let Some(here) = bytes.get_mut(at) {
        *here = byte;
    }
    match open_key_block(bytes) {
        Ok(_) => Ok(None),
        Err(Damaged(place)) => Ok(Some(place)),
    }
}

/// A place, another byte there, and where the block is then damaged.
static CHANGES: [(usize, u8, u64); 23] = [
    (0, 0x56, 0),
    (1, 1, 1),
    (2, 1, 2),
    (3, 1, 3),
    (5, 1, 4),
    (7, 0x17, 4),
    (7, 0x19, 4),
    (11, 0, 8),
    (11, 3, 8),
    (15, 1, 4),
    (17, 1, 8),
    (18, 3, 18),
    (18, 2, 30),
    (28, 0, 27),
    (28, 9, 50),
    (53, b'b', 42),
    (53, b'g', 4_114),
    (54, 1, 54),
    (4_125, b'd', 4_114),
    (4_137, b'f', 4_126),
    (4_138, 1, 4_138),
    (8_211, 1, 8_208),
    (8_215, 1, 8_212),
];

#[test]
fn each_field_is_refused_at_itself(rt: HostRuntime) -> Result<(), Fail> {
    let alloc = rt.alloc();
    assert_eq!(&rt; damage(alloc, 8_216, 1)?, None);
    for change in &CHANGES {
        let (at, byte, place) = *change;
        assert_eq!(&rt; damage(alloc, at, byte)?, Some(place));
    }
    Ok(())
}

/// The numbers of the keys `b` to `h` of a block, 0 where there is none, as digits.
fn numbers(block: &KeyBlock) -> u64 {
    let keys: [&[u8]; 9] = [b"a", b"b", b"c", b"d", b"e", b"f", b"g", b"h", b"i"];
    let mut digits: u64 = 0;
    for key in &keys {
        let number = match block.find(key) {
            Some(entry) => entry.number,
            None => 0,
        };
        digits = digits.wrapping_mul(10).wrapping_add(number);
    }
    digits
}

/// The numbers of the entries of a block in order, as digits.
fn all_numbers(block: &KeyBlock) -> u64 {
    let mut digits: u64 = 0;
    for at in 0..block.len() {
        digits = digits.wrapping_mul(10).wrapping_add(block.entry(at).number);
    }
    digits
}

#[test]
fn keys_are_found_and_keys_between_are_not(rt: HostRuntime) -> Result<(), Fail> {
    match open_key_block(two_pages(rt.alloc())?) {
        Err(_) => assert!(&rt; false),
        Ok(block) => {
            assert_eq!(&rt; block.len(), 4);
            assert_eq!(&rt; numbers(&block), 10_203_040);
            assert_eq!(&rt; all_numbers(&block), 1_234);
            let place = ValuePlace {
                block: 3,
                offset: 16,
                len: 5,
            };
            match block.find(b"b") {
                None => assert!(&rt; false),
                Some(entry) => assert!(&rt; entry.value == Some(place)),
            }
        }
    }
    Ok(())
}

#[test]
fn a_block_of_zeros_is_refused(rt: HostRuntime) -> Result<(), Fail> {
    let zeros = Vec::from_elem(rt.alloc(), 0, 65_536)?;
    match open_key_block(zeros) {
        Err(Damaged(place)) => assert_eq!(&rt; place, 0),
        Ok(_) => assert!(&rt; false),
    }
    Ok(())
}
