//! Rows of sets, packed into blocks, and their blocks opened again.
ghost use Rattle.std.specs.Prelude.{◌≡◌, ◌+◌, ◌≤◌, true};
ghost use Rattle.hse_rows.specs.rows.Packing.{value_entry_bytes};
ghost use Rattle.hse_rows.specs.rows.RowSets.{row_of};

use crate::values::SLOT;
use hse_io::NoMemory;
use hse_rows::{Change, ChangeRef, Key, Prefix, Row, RowRef, RowSet, Shared, StoreId, Value};
use ingest_tree::{IngestTree, StoreRows};
use kblock::{ValuePlace, open_key_block};
use kvset::{Block, Kvset, SetFault, open_set};
use set_build::{Packed, Packer};
use std::alloc::Global;
use std::process::Abort;
use std::test::Fail;
use vblock::open_value_block;

/// Whether a row's value fits into a block of 65,536 bytes.
fn fits(row: RowRef<'_>) -> bool
    ensures { result ≡ true → 16 + value_entry_bytes (row_of row.entry).change ≤ 65536 }
{
    match row.change {
        ChangeRef::Put(_, value) => value.len() <= 65_472,
        ChangeRef::Del(_) => true,
        ChangeRef::PDel(_) => true,
    }
}

/// The blocks of rows, of at most 65,536 bytes; none where a value does not fit into one.
fn packed<R: RowSet>(alloc: Global, rows: &R) -> Result<Option<Packed>, NoMemory> {
    rows.known();
    let mut packer = Packer::new(alloc, SLOT, true)?;
    for at in 0..rows.len() {
        let row = rows.row(at);
        if !fits(row) {
            return Ok(None);
        }
        packer.push(row, None)?;
    }
    Ok(Some(packer.finish()?))
}

/// A key of 1,344 bytes with a number in it.
fn long_key(alloc: Global, number: u64) -> Result<Key, Fail> {
    let mut bytes = Vec::from_elem(alloc, b'k', 1_336)?;
    bytes.extend_from_slice(&number.to_be_bytes())?;
    Ok(Key::new(alloc, &bytes)?)
}

/// So many puts of long keys with a value.
fn puts(alloc: Global, count: u64, value: &[u8]) -> Result<StoreRows, Fail> {
    let mut tree = IngestTree::empty();
    for number in 0..count {
        let value = Value::new(alloc, value, 65_472)?;
        let change = Change::Put(long_key(alloc, number)?, value);
        tree = tree.with_row(alloc, StoreId(1), Row { number, change })?;
    }
    Ok(tree.rows(alloc, StoreId(1))?)
}

/// So many deletions of long keys.
fn deletions(alloc: Global, count: u64) -> Result<StoreRows, Fail> {
    let mut tree = IngestTree::empty();
    for number in 0..count {
        let change = Change::Del(long_key(alloc, number)?);
        tree = tree.with_row(alloc, StoreId(1), Row { number, change })?;
    }
    Ok(tree.rows(alloc, StoreId(1))?)
}

/// How many blocks of prefix deletes, keys and values rows fill, and how many keys the first block of
/// keys has.
fn filled(alloc: Global, rows: &StoreRows) -> Result<(u64, u64, u64, u64), Fail> {
    let mut first = 0;
    let Some(packed) = packed(alloc, rows)? else {
        return Ok((9, 9, 9, 9));
    };
    let prefixes = packed.prefixes.len() as u64;
    let keys = packed.keys.len() as u64;
    let values = packed.values.len() as u64;
    for block in packed.keys {
        if first == 0 {
            first = keys_of(block);
        }
    }
    Ok((prefixes, keys, values, first))
}

/// How many keys a block of keys has.
fn keys_of(block: Vec<u8>) -> u64 {
    match open_key_block(block) {
        Ok(block) => block.len(),
        Err(_) => 0,
    }
}

#[test]
fn blocks_are_as_full_as_they_go(rt: HostRuntime) -> Result<(), Fail> {
    let alloc = rt.alloc();
    assert_eq!(&rt; filled(alloc, &puts(alloc, 31, b"")?)?, (0, 2, 1, 30));
    assert_eq!(&rt; filled(alloc, &deletions(alloc, 46)?)?, (0, 2, 0, 45));
    let value = Vec::from_elem(alloc, 7, 65_472)?;
    assert_eq!(&rt; filled(alloc, &puts(alloc, 2, &value)?)?, (0, 1, 2, 2));
    assert_eq!(&rt; filled(alloc, &deletions(alloc, 0)?)?, (0, 0, 0, 0));
    Ok(())
}

/// The blocks of rows whose values stay where they are, all at one place.
fn packed_over<R: RowSet>(alloc: Global, rows: &R, place: ValuePlace) -> Result<Packed, NoMemory> {
    rows.known();
    let mut packer = Packer::new(alloc, SLOT, false)?;
    for at in 0..rows.len() {
        packer.push(rows.row(at), Some(place))?;
    }
    packer.finish()
}

/// A prefix delete of number 3, a put of number 1 and a deletion of number 2.
fn three_rows(alloc: Global) -> Result<StoreRows, Fail> {
    let value = Value::new(alloc, b"v", 8)?;
    let put = Change::Put(Key::new(alloc, b"a")?, value);
    let delete = Change::Del(Key::new(alloc, b"b")?);
    let prefix = Change::PDel(Prefix::new(alloc, b"c", 32)?);
    let mut tree = IngestTree::empty();
    for (number, change) in [(1u64, put), (2, delete), (3, prefix)] {
        tree = tree.with_row(alloc, StoreId(1), Row { number, change })?;
    }
    Ok(tree.rows(alloc, StoreId(1))?)
}

/// Where the value of the key `a` is in the first of these blocks of keys.
fn place_in(keys: Vec<Vec<u8>>) -> Option<ValuePlace> {
    for block in keys {
        let Ok(block) = open_key_block(block) else {
            return None;
        };
        return match block.find(b"a") {
            Some(entry) => entry.value,
            None => None,
        };
    }
    None
}

#[test]
fn values_stand_where_their_keys_say(rt: HostRuntime) -> Result<(), Fail> {
    let alloc = rt.alloc();
    let rows = three_rows(alloc)?;
    let Some(packed) = packed(alloc, &rows)? else {
        assert!(&rt; false);
        return Ok(());
    };
    assert_eq!(&rt; packed.prefixes.len(), 1);
    let place = ValuePlace {
        block: 0,
        offset: 16,
        len: 1,
    };
    assert!(&rt; place_in(packed.keys) == Some(place));
    for block in packed.values {
        match open_value_block(SLOT, block) {
            Err(_) => assert!(&rt; false),
            Ok(block) => assert!(&rt; block.value(16, 1) == Some(b"v".as_slice())),
        }
    }
    Ok(())
}

#[test]
fn values_that_stay_are_not_packed(rt: HostRuntime) -> Result<(), Fail> {
    let alloc = rt.alloc();
    let place = ValuePlace {
        block: 7,
        offset: 99,
        len: 1,
    };
    let packed = packed_over(alloc, &three_rows(alloc)?, place)?;
    assert_eq!(&rt; packed.values.len(), 0);
    assert!(&rt; place_in(packed.keys) == Some(place));
    Ok(())
}

/// Blocks in slots from one on.
fn in_slots(alloc: Global, first: u32, blocks: Vec<Vec<u8>>) -> Result<Vec<Block>, NoMemory> {
    let mut slot = first;
    let mut placed = Vec::new(alloc);
    for bytes in blocks {
        placed.push(Block { slot, bytes })?;
        slot = slot.wrapping_add(1);
    }
    Ok(placed)
}

/// The set of these blocks.
fn opened(alloc: Global, packed: Packed) -> Result<Result<Kvset, SetFault>, NoMemory> {
    let prefixes = in_slots(alloc, 0, packed.prefixes)?;
    let keys = in_slots(alloc, 10, packed.keys)?;
    let values = in_slots(alloc, 20, packed.values)?;
    Ok(open_set(alloc, SLOT, prefixes, keys, values))
}

#[test]
fn a_packed_set_opens_with_its_rows(rt: HostRuntime) -> Result<(), Fail> {
    let alloc = rt.alloc();
    let Some(packed) = packed(alloc, &three_rows(alloc)?)? else {
        assert!(&rt; false);
        return Ok(());
    };
    match opened(alloc, packed)? {
        Err(_) => assert!(&rt; false),
        Ok(set) => {
            assert_eq!(&rt; set.len(), 3);
            assert_eq!(&rt; set.covered(b"cd"), Some(3));
            let put = RowRef {
                number: 1,
                change: ChangeRef::Put(b"a", b"v"),
            };
            assert!(&rt; set.find(b"a") == Some(put));
            assert!(&rt; set.find(b"c").is_none());
            assert_eq!(&rt; set.share(alloc)?.len(), 3);
        }
    }
    Ok(())
}
