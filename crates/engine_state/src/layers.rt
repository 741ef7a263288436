//! Changes of lent bytes, and the active layer with the writes of one commit more.
ghost use Rattle.std.specs.Prelude.{◌≡◌, IfOk};
ghost use Rattle.hse_rows.specs.writes.Change.{change_of};
ghost use Rattle.view.specs.Commits.{active_of, with_writes};

use hse_io::NoMemory;
use hse_rows::{Change, ChangeRef, Key, LONGEST_PREFIX, Prefix, Row, Shared, Value, WriteSet};
use ingest_tree::IngestTree;
use std::alloc::Global;
use view::View;

/// A key of these bytes.
fn key_of(alloc: Global, bytes: &[u8]) -> Result<Key, NoMemory>
    ensures { IfOk result (λ key. key ≡ bytes.now) }
{
    match Key::new(alloc, bytes) {
        Ok(key) => Ok(key),
        Err(_) => Err(NoMemory),
    }
}

/// A value of these bytes.
fn value_of(alloc: Global, bytes: &[u8]) -> Result<Value, NoMemory>
    ensures { IfOk result (λ value. value ≡ bytes.now) }
{
    match Value::new(alloc, bytes, u64::MAX) {
        Ok(value) => Ok(value),
        Err(_) => Err(NoMemory),
    }
}

/// A prefix of these bytes.
fn prefix_of(alloc: Global, bytes: &[u8]) -> Result<Prefix, NoMemory>
    ensures { IfOk result (λ prefix. prefix ≡ bytes.now) }
{
    match Prefix::new(alloc, bytes, LONGEST_PREFIX as u8) {
        Ok(prefix) => Ok(prefix),
        Err(_) => Err(NoMemory),
    }
}

/// The change that lent bytes say, which are within the limits.
pub(crate) fn change_with(alloc: Global, change: ChangeRef<'_>) -> Result<Change, NoMemory>
    ensures { IfOk result (λ made. made ≡ change_of change.entry) }
{
    match change {
        ChangeRef::Put(key, value) => Ok(Change::Put(key_of(alloc, key)?, value_of(alloc, value)?)),
        ChangeRef::Del(key) => Ok(Change::Del(key_of(alloc, key)?)),
        ChangeRef::PDel(prefix) => Ok(Change::PDel(prefix_of(alloc, prefix)?)),
    }
}

/// The layer with a row for each of these writes, whose bytes it shares, beside the old one.
fn layer_with(
    alloc: Global,
    layer: &IngestTree,
    number: u64,
    writes: &WriteSet,
) -> Result<IngestTree, NoMemory>
    ensures { IfOk result (λ tree. tree ≡ with_writes number layer.now writes.now) }
{
    let mut tree = layer.share(alloc)?;
    for place in 0..writes.len() {
        let write = writes.write(place);
        let row = Row {
            number,
            change: write.change.share(alloc)?,
        };
        tree = tree.with_row(alloc, write.store, row)?;
    }
    Ok(tree)
}

/// The active layer of a view with a row for each of these writes, beside the old one.
pub(crate) fn active_with<R: Shared>(
    alloc: Global,
    view: &View<R>,
    number: u64,
    writes: &WriteSet,
) -> Result<IngestTree, NoMemory>
    ensures { IfOk result (λ tree. tree ≡ with_writes number (active_of view.now.layers) writes.now) }
{
    match view.layer(0) {
        Some(active) => layer_with(alloc, active, number, writes),
        None => layer_with(alloc, &IngestTree::empty(), number, writes),
    }
}
