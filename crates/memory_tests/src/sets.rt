//! A tree and a merge over the rows of an ingest tree.
ghost use Rattle.std.specs.Prelude.{◌≡◌, [], IfOk};
ghost use Rattle.cn_tree.specs.Tree.{in_front};

use cn_tree::{NodePath, Tree, TreeFault};
use hse_io::NoMemory;
use hse_rows::{Change, Key, Prefix, Row, RowRef, RowSet, Shared, StoreId, Value};
use ingest_tree::{IngestTree, StoreRows};
use merge::Merged;
use std::alloc::Global;
use std::process::Abort;
use std::test::Fail;

/// Two keys of one byte, and a prefix delete that is newer than the second.
fn rows_of(alloc: Global) -> Result<StoreRows, Fail> {
    let mut tree = IngestTree::empty();
    for (number, key) in [(1u64, b"a".as_slice()), (2, b"b".as_slice())] {
        let key = Key::new(alloc, key)?;
        let value = Value::new(alloc, b"v", 8)?;
        let change = Change::Put(key, value);
        tree = tree.with_row(alloc, StoreId(1), Row { number, change })?;
    }
    let change = Change::PDel(Prefix::new(alloc, b"b", 32)?);
    tree = tree.with_row(alloc, StoreId(1), Row { number: 3, change })?;
    Ok(tree.rows(alloc, StoreId(1))?)
}

/// The number of a row that may be there.
fn number_of(row: Option<RowRef<'_>>) -> Option<u64> {
    match row {
        Some(row) => Some(row.number),
        None => None,
    }
}

/// A tree with one set, at the root.
fn tree_of<R: Shared>(alloc: Global, set: R) -> Result<Tree<R>, NoMemory>
    ensures { IfOk result (λ tree. tree
        ≡ record { prefix_length = 0; nodes = in_front [] [] set }) }
{
    Tree::empty(0).put_front(alloc, &NodePath::root(), set)
}

/// The number of the row that a tree with one set finds.
fn found_in(alloc: Global, set: StoreRows, key: &[u8]) -> Result<Option<u64>, NoMemory> {
    let tree = tree_of(alloc, set)?;
    Ok(number_of(tree.find(key)))
}

/// The nodes of a tree with one set at the root, once its run left, and once it was spilled to a child.
fn nodes_after(
    alloc: Global,
    one: StoreRows,
    other: StoreRows,
) -> Result<(u64, u64, u64), TreeFault> {
    let root = NodePath::root();
    let tree = tree_of(alloc, one)?;
    let without = tree.replace_run(alloc, &root, 0, 1, None)?;
    let Some(child) = root.child(3) else {
        return Err(TreeFault::NoRun(0));
    };
    let mut sets = Vec::new(alloc);
    if let Err(_) = sets.push((child, other)) {
        return Err(TreeFault::NoMemory);
    }
    let spilled = tree.spill_into(alloc, &root, 1, sets)?;
    Ok((tree.nodes(), without.nodes(), spilled.nodes()))
}

/// A merge of one source.
fn merge_of(alloc: Global, set: StoreRows) -> Result<Merged<StoreRows>, NoMemory> {
    let mut sources = Vec::new(alloc);
    sources.push(set)?;
    Merged::new(alloc, sources)
}

#[test]
fn a_tree_finds_the_rows_of_its_set(rt: HostRuntime) -> Result<(), Fail> {
    let alloc = rt.alloc();
    assert_eq!(&rt; found_in(alloc, rows_of(alloc)?, b"a")?, Some(1));
    assert_eq!(&rt; found_in(alloc, rows_of(alloc)?, b"b")?, None);
    assert_eq!(&rt; found_in(alloc, rows_of(alloc)?, b"c")?, None);
    Ok(())
}

#[test]
fn a_run_leaves_its_node_or_is_spilled_to_a_child(rt: HostRuntime) -> Result<(), Fail> {
    let alloc = rt.alloc();
    let nodes = nodes_after(alloc, rows_of(alloc)?, rows_of(alloc)?);
    assert_eq!(&rt; nodes, Ok((1, 0, 1)));
    Ok(())
}

#[test]
fn a_merge_gives_the_rows_of_its_source(rt: HostRuntime) -> Result<(), Fail> {
    let alloc = rt.alloc();
    let mut merged = merge_of(alloc, rows_of(alloc)?)?;
    assert_eq!(&rt; number_of(merged.next()), Some(1));
    assert_eq!(&rt; number_of(merged.next()), None);
    assert_eq!(&rt; merged.last_place(), Some((0, 1)));
    assert_eq!(&rt; merged.prefixes(alloc)?.len(), 1);
    Ok(())
}
