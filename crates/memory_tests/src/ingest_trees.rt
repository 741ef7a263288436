//! Trees of rows: leaves, old roots, look-ups, and walks both ways.
use hse_rows::{Change, Key, Prefix, Row, RowRef, RowSet, Shared, StoreId, Value};
use ingest_tree::IngestTree;
use std::alloc::Global;
use std::process::Abort;
use std::test::Fail;

/// A put of a key, with its number as value.
fn put(alloc: Global, number: u64, key: &[u8]) -> Result<Row, Fail> {
    let key = Key::new(alloc, key)?;
    let value = Value::new(alloc, &number.to_be_bytes(), 8)?;
    Ok(Row {
        number,
        change: Change::Put(key, value),
    })
}

/// A prefix delete.
fn pdel(alloc: Global, number: u64, prefix: &[u8]) -> Result<Row, Fail> {
    let prefix = Prefix::new(alloc, prefix, 32)?;
    Ok(Row {
        number,
        change: Change::PDel(prefix),
    })
}

/// A tree with these many rows more, whose keys ascend from a number on.
fn grown(alloc: Global, tree: IngestTree, from: u64, count: u64) -> Result<IngestTree, Fail> {
    let mut tree = tree;
    for i in 0..count {
        let number = from.wrapping_add(i);
        let row = put(alloc, number, &number.to_be_bytes())?;
        tree = tree.with_row(alloc, StoreId(1), row)?;
    }
    Ok(tree)
}

/// The number of a row that may be there.
fn number_of(row: Option<RowRef<'_>>) -> Option<u64> {
    match row {
        Some(row) => Some(row.number),
        None => None,
    }
}

#[test]
fn the_129th_row_makes_a_second_leaf(rt: HostRuntime) -> Result<(), Fail> {
    let alloc = rt.alloc();
    let empty = IngestTree::empty();
    assert_eq!(&rt; empty.leaves(), 0);
    let three = grown(alloc, empty, 0, 3)?;
    let full = grown(alloc, three.share(alloc)?, 3, 125)?;
    assert_eq!(&rt; (full.len(), full.leaves()), (128, 1));
    let split = grown(alloc, full, 128, 1)?;
    assert_eq!(&rt; (split.len(), split.leaves()), (129, 2));
    assert_eq!(&rt; (three.len(), three.leaves()), (3, 1));
    let mut numbers = Vec::new(alloc);
    for (_, row) in three.iter() {
        numbers.push(row.number)?;
    }
    assert_eq!(&rt; numbers.as_slice(), [0, 1, 2].as_slice());
    Ok(())
}

#[test]
fn a_row_takes_the_place_of_the_older_one(rt: HostRuntime) -> Result<(), Fail> {
    let alloc = rt.alloc();
    let old = grown(alloc, IngestTree::empty(), 0, 300)?;
    let key = 77u64.to_be_bytes();
    let new = old.with_row(alloc, StoreId(1), put(alloc, 900, &key)?)?;
    assert_eq!(&rt; number_of(old.get(StoreId(1), &key)), Some(77));
    assert_eq!(&rt; number_of(new.get(StoreId(1), &key)), Some(900));
    assert_eq!(&rt; number_of(new.get(StoreId(2), &key)), None);
    assert_eq!(&rt; new.len(), 300);
    Ok(())
}

#[test]
fn prefixes_of_each_length_cover(rt: HostRuntime) -> Result<(), Fail> {
    let alloc = rt.alloc();
    let mut tree = IngestTree::empty();
    tree = tree.with_row(alloc, StoreId(1), pdel(alloc, 5, b"a")?)?;
    tree = tree.with_row(alloc, StoreId(1), pdel(alloc, 3, b"ab")?)?;
    tree = tree.with_row(alloc, StoreId(1), pdel(alloc, 9, b"abcd")?)?;
    tree = tree.with_row(alloc, StoreId(2), pdel(alloc, 11, b"a")?)?;
    assert_eq!(&rt; tree.covered(StoreId(1), b"abc"), Some(5));
    assert_eq!(&rt; tree.covered(StoreId(1), b"abcd"), Some(9));
    assert_eq!(&rt; tree.covered(StoreId(1), b"b"), None);
    assert_eq!(&rt; tree.covered(StoreId(2), b"abcd"), Some(11));
    let rows = tree.rows(alloc, StoreId(1))?;
    assert_eq!(&rt;
        (rows.len(), rows.covered(b"ax"), rows.place(b"")),
        (3, Some(5), 3)
    );
    Ok(())
}

#[test]
fn walks_give_the_rows_both_ways(rt: HostRuntime) -> Result<(), Fail> {
    let alloc = rt.alloc();
    let tree = grown(alloc, IngestTree::empty(), 1000, 1000)?;
    let tree = tree.with_row(alloc, StoreId(0), put(alloc, 1, b"z")?)?;
    let mut up = Vec::new(alloc);
    for (_, row) in tree.iter() {
        up.push(row.number)?;
    }
    let mut down = Vec::new(alloc);
    for (_, row) in tree.iter_back() {
        down.push(row.number)?;
    }
    down.reverse();
    assert_eq!(&rt; up.as_slice(), down.as_slice());
    assert_eq!(&rt; up.len(), 1001);
    assert_eq!(&rt; up.first().copied(), Some(1));
    let rows = tree.rows(alloc, StoreId(1))?;
    assert_eq!(&rt;
        (rows.len(), rows.place(&1500u64.to_be_bytes())),
        (1000, 500)
    );
    Ok(())
}
