//! Cursors over a layer, and over the own writes of a transaction.
ghost use Rattle.std.specs.Prelude.{◌≡◌, ◌≤◌, IfOk};
ghost use Rattle.std.specs.List.{AllByRecursion};
ghost use Rattle.ingest_tree.specs.declared.store_row.StoreRow.{StoreRow as a_row};
ghost use Rattle.cursors.specs.Cursors.{AreNewer};

use crate::views::{view_of, write};
use cursors::{Cursor, ForwardOnly};
use hse_io::NoMemory;
use hse_rows::{Change, Edge, Key, Row, StoreId, StoreName, Value};
use ingest_tree::{IngestTree, StoreRows};
use std::alloc::Global;
use std::process::Abort;
use std::test::Fail;
use transactions::Txn;

/// Pairs of store 1.
static PAIRS: [(&[u8], &[u8]); 4] = [(b"aa", b"1"), (b"ab", b"2"), (b"ad", b"3"), (b"ba", b"4")];

/// A put.
fn put(alloc: Global, key: &[u8], value: &[u8]) -> Result<Change, Fail> {
    let key = Key::new(alloc, key)?;
    let value = Value::new(alloc, value, 8)?;
    Ok(Change::Put(key, value))
}

/// A layer with one more row of store 1, with number 2.
fn with_row(alloc: Global, layer: &IngestTree, change: Change) -> Result<IngestTree, NoMemory>
    requires { AllByRecursion (λ (row : a_row). row.row.number ≤ 2) layer.now }
    ensures { IfOk result (λ layer. AllByRecursion (λ (row : a_row). row.row.number ≤ 2) layer) }
{
    layer.with_row(alloc, StoreId(1), Row { number: 2, change })
}

/// A layer with the pairs.
fn layer_of(alloc: Global) -> Result<IngestTree, Fail>
    ensures { IfOk result (λ layer. AllByRecursion (λ (row : a_row). row.row.number ≤ 2) layer) }
{
    let mut layer = IngestTree::empty();
    for at in 0..PAIRS.len() {
        let (key, value) = PAIRS[at];
        layer = with_row(alloc, &layer, put(alloc, key, value)?)?;
    }
    Ok(layer)
}

/// A cursor over the pairs.
fn over_pairs(alloc: Global, reverse: bool, filter: &[u8]) -> Result<Cursor<StoreRows>, Fail> {
    let name = StoreName::new(alloc, b"s")?;
    let view = view_of(alloc, 2, name.share(alloc)?, layer_of(alloc)?)?;
    let filter = Edge::new(alloc, filter)?;
    let cursor = Cursor::create(alloc, view, None, &name, reverse, filter)?;
    Ok(cursor)
}

/// The own writes of a transaction.
fn own_of(alloc: Global, txn: &Txn<StoreRows>) -> Result<Option<IngestTree>, NoMemory>
    ensures { IfOk result (λ own. AreNewer txn.now.view own) }
{
    match txn.own() {
        None => Ok(None),
        Some(own) => Ok(Some(own.share(alloc)?)),
    }
}

/// A cursor over what a transaction reads.
fn over_txn(
    alloc: Global,
    txn: &Txn<StoreRows>,
    name: &StoreName,
) -> Result<Cursor<StoreRows>, Fail> {
    let view = txn.view().share(alloc)?;
    let own = own_of(alloc, txn)?;
    let cursor = Cursor::create(alloc, view, own, name, false, Edge::new(alloc, b"")?)?;
    Ok(cursor)
}

/// Takes what a transaction reads by now.
fn update(alloc: Global, cursor: &mut Cursor<StoreRows>, txn: &Txn<StoreRows>) -> Result<(), Fail> {
    let view = txn.view().share(alloc)?;
    let own = own_of(alloc, txn)?;
    cursor.update_view(alloc, view, own)?;
    Ok(())
}

#[test]
fn a_reverse_cursor_goes_down_within_its_filter(rt: HostRuntime) -> Result<(), Fail> {
    let alloc = rt.alloc();
    let mut cursor = over_pairs(alloc, true, b"a")?;
    assert!(&rt; cursor.read() == Some((b"ad".as_slice(), b"3".as_slice())));
    assert!(&rt; cursor.seek(&Edge::new(alloc, b"ac")?) == Some(b"ab".as_slice()));
    assert!(&rt; cursor.read() == Some((b"ab".as_slice(), b"2".as_slice())));
    assert!(&rt; cursor.seek(&Edge::new(alloc, b"a")?) == None);
    assert!(&rt; cursor.read() == None);
    assert!(&rt; cursor.read() == None);
    let b = Edge::new(alloc, b"b")?;
    assert!(&rt; cursor.seek(&b) == Some(b"ad".as_slice()));
    assert!(&rt; cursor.seek_range(&b, &b) == Err(ForwardOnly));
    assert!(&rt; cursor.read() == Some((b"ad".as_slice(), b"3".as_slice())));
    Ok(())
}

#[test]
fn a_range_ends_with_its_last_key(rt: HostRuntime) -> Result<(), Fail> {
    let alloc = rt.alloc();
    let mut cursor = over_pairs(alloc, false, b"")?;
    let (first, last) = (Edge::new(alloc, b"ab")?, Edge::new(alloc, b"ad")?);
    assert!(&rt; cursor.seek_range(&first, &last) == Ok(Some(b"ab".as_slice())));
    assert!(&rt; cursor.read() == Some((b"ab".as_slice(), b"2".as_slice())));
    assert!(&rt; cursor.read() == Some((b"ad".as_slice(), b"3".as_slice())));
    assert!(&rt; cursor.read() == None);
    assert!(&rt; cursor.seek(&last) == Some(b"ad".as_slice()));
    Ok(())
}

#[test]
fn a_cursor_sees_later_writes_once_it_is_updated(rt: HostRuntime) -> Result<(), Fail> {
    let alloc = rt.alloc();
    let name = StoreName::new(alloc, b"s")?;
    let view = view_of(alloc, 1, name.share(alloc)?, IngestTree::empty())?;
    let mut txn = Txn::begin(alloc, view, 1);
    write(alloc, &mut txn, &put(alloc, b"a", b"1")?)?;
    let mut cursor = over_txn(alloc, &txn, &name)?;
    write(alloc, &mut txn, &put(alloc, b"b", b"2")?)?;
    assert!(&rt; cursor.read() == Some((b"a".as_slice(), b"1".as_slice())));
    assert!(&rt; cursor.read() == None);
    update(alloc, &mut cursor, &txn)?;
    assert!(&rt; cursor.read() == Some((b"b".as_slice(), b"2".as_slice())));
    assert!(&rt; cursor.read() == None);
    Ok(())
}
