//! A view and a cursor copy no rows of a set: a set that counts its calls.
ghost use Rattle.std.specs.Prelude.{◌≡◌, ◌≤◌, List, [], IfOk};
ghost use Rattle.cn_tree.specs.Tree.{in_front};
ghost use Rattle.std.specs.List.{AllByRecursion};
ghost use Rattle.hse_rows.specs.declared.row.Row.{Row as one_row};
ghost use Rattle.ingest_tree.specs.declared.store_row.StoreRow.{StoreRow as a_row};
ghost use Rattle.view.specs.Routed.{FitsStore};

use cn_tree::{NodePath, Tree};
use cursors::Cursor;
use hse_io::NoMemory;
use hse_rows::{Change, Edge, Key, Mode, Row, RowRef, RowSet, Shared, StoreId, StoreName, Value};
use ingest_tree::{IngestTree, StoreRows};
use std::alloc::Global;
use std::marker::Model;
use std::process::Abort;
use std::sync::Arc;
use std::sync::atomic::{AtomicU64, Ordering};
use std::test::Fail;
use view::{View, ViewStore};

/// A set that passes each call on, and counts those of `find` and of `row` with all its shares.
#[derive(Drop)]
struct Counted<R: Shared> {
    set: R,
    finds: Arc<AtomicU64>,
    rows: Arc<AtomicU64>,
}

impl<R: Shared> Model for Counted<R> {
    ghost use Rattle.std.specs.Prelude.{List};
    ghost use Rattle.hse_rows.specs.declared.row.Row.{Row};

    ghost Value = { List Row };

    ghost view = { λ counted. R.rows counted.set };
}

impl<R: Shared> RowSet for Counted<R> {
    ghost rows = { λ counted. counted };

    fn len(&self) -> u64 {
        self.set.len()
    }

    fn row(&self, at: u64) -> RowRef<'_> {
        self.rows.fetch_add(1, Ordering::Relaxed);
        self.set.row(at)
    }

    fn find(&self, key: &[u8]) -> Option<RowRef<'_>> {
        self.finds.fetch_add(1, Ordering::Relaxed);
        self.set.find(key)
    }

    fn covered(&self, key: &[u8]) -> Option<u64> {
        self.set.covered(key)
    }

    fn place(&self, edge: &[u8]) -> u64 {
        self.set.place(edge)
    }

    fn known(&self) {
        self.set.known()
    }
}

impl<R: Shared> Shared for Counted<R> {
    fn share(&self, alloc: Global) -> Result<Counted<R>, NoMemory> {
        Ok(Counted {
            set: self.set.share(alloc)?,
            finds: self.finds.clone()?,
            rows: self.rows.clone()?,
        })
    }
}

/// How many rows the set has.
const ROWS: u64 = 10_000;

/// A layer with one more put of store 1, with number 1.
fn with_put(alloc: Global, layer: &IngestTree, key: &[u8]) -> Result<IngestTree, Fail>
    requires { AllByRecursion (λ (row : a_row). (row.row.number ≤ 1) × FitsStore 0 row.row.change) layer.now }
    ensures { IfOk result (AllByRecursion (λ (row : a_row). (row.row.number ≤ 1) × FitsStore 0 row.row.change)) }
{
    let key = Key::new(alloc, key)?;
    let value = Value::new(alloc, b"v", 8)?;
    let change = Change::Put(key, value);
    Ok(layer.with_row(alloc, StoreId(1), Row { number: 1, change })?)
}

/// Many puts.
fn rows_of(alloc: Global) -> Result<StoreRows, Fail>
    ensures { IfOk result (AllByRecursion (λ (row : one_row). (row.number ≤ 1) × FitsStore 0 row.change)) }
{
    let mut layer = IngestTree::empty();
    for at in 0..ROWS {
        layer = with_put(alloc, &layer, &at.to_be_bytes())?;
    }
    Ok(layer.rows(alloc, StoreId(1))?)
}

/// A tree with one set, at the root.
fn tree_of<R: Shared>(alloc: Global, set: R) -> Result<Tree<R>, NoMemory>
    ensures { IfOk result (λ tree. tree
        ≡ record { prefix_length = 0; nodes = in_front [] [] set }) }
{
    Tree::empty(0).put_front(alloc, &NodePath::root(), set)
}

/// A view of one store with one set, at the root.
fn view_of<R: Shared>(alloc: Global, name: StoreName, set: R) -> Result<View<R>, NoMemory>
    requires { AllByRecursion (λ (row : one_row). (row.number ≤ 1) × FitsStore 0 row.change) (R.rows set) }
{
    let tree = tree_of(alloc, set)?;
    let mut stores = Vec::new(alloc);
    stores.push(ViewStore {
        name,
        id: StoreId(1),
        mode: Mode::Plain,
        prefix: 0,
        tree,
    })?;
    View::of(alloc, 1, stores, IngestTree::empty(), Vec::new(alloc))
}

/// How many of this many reads give a pair.
fn pairs_of<R: Shared>(cursor: &mut Cursor<R>, reads: u64) -> u64 {
    for at in 0..reads {
        if cursor.read().is_none() {
            return at;
        }
    }
    reads
}

#[test]
fn a_view_and_a_cursor_copy_no_rows(rt: HostRuntime) -> Result<(), Fail> {
    let alloc = rt.alloc();
    let finds = Arc::new(alloc, AtomicU64::new(0))?;
    let rows = Arc::new(alloc, AtomicU64::new(0))?;
    let name = StoreName::new(alloc, b"s")?;
    let set = Counted {
        set: rows_of(alloc)?,
        finds: finds.clone()?,
        rows: rows.clone()?,
    };
    let view = view_of(alloc, name.share(alloc)?, set)?;
    let twin = view.share(alloc)?;
    assert!(&rt; view.get(&name, &77u64.to_be_bytes()) == Ok(Some(b"v".as_slice())));
    assert!(&rt; finds.load(Ordering::Relaxed) >= 1);
    let mut cursor = Cursor::create(alloc, twin, None, &name, false, Edge::new(alloc, b"")?)?;
    assert!(&rt; rows.load(Ordering::Relaxed) <= 64);
    assert_eq!(&rt; pairs_of(&mut cursor, ROWS + 1), ROWS);
    assert!(&rt; rows.load(Ordering::Relaxed) >= ROWS);
    Ok(())
}
