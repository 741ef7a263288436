//! Rows of several stores in a tree of shared leaves and branches.
ghost use Rattle.std.specs.Prelude.{◌≡◌, ◌≤◌, ◌+◌, ◌*◌, ◌/◌, ◌<◌, ◌^◌};
ghost use Rattle.std.specs.Prelude.{[], ◌∷◌, length, reverse, slice_get, Some, IfOk};
ghost use Rattle.std.specs.Option.{option_map};
ghost use Rattle.hse_rows.specs.rows.Meaning.{own_at, covered_at, greater as greatest_of};
ghost use Rattle.hse_rows.specs.rows.RowSets.{row_by};
ghost use Rattle.ingest_tree.specs.Rows.{AreRising, store_row, rows_in, row_at};
ghost use Rattle.ingest_tree.specs.Rows.{rows_with, found_at, count_before};
ghost use Rattle.ingest_tree.specs.declared.store_row.StoreRow.{StoreRow as a_row};
ghost use Rattle.ingest_tree.specs.Iteration.{left_of};
ghost use Rattle.ingest_tree.specs.Parts.{Stand};
ghost use Rattle.ingest_tree.specs.Tree.{AreRowsOfStores, IsFilledBranch, IsSoundBranch, leaves_of};

use crate::builder::Twin;
use crate::iter::IngestIter;
use crate::lengths::Lengths;
use crate::node::{Branch, Node, lone, root_with};
use crate::part::Part;
use crate::piece::Piece;
use crate::steps::Steps;
use crate::store_row::{SharedRow, Spot, StoreRow};
use crate::store_rows::StoreRows;
use hse_io::NoMemory;
use hse_rows::{ChangeRef, Row, RowRef, StoreId};
use std::alloc::Global;
use std::marker::{Brand, Model};
use std::sync::ledger::{Blank, Ledger};

/// Rows of several stores, each key and each prefix of a store once. Trees share their leaves and
/// branches.
#[derive(Drop)]
pub struct IngestTree {
    root: Option<Node<Branch>>,
    lengths: Lengths,
}

impl Model for IngestTree {
    ghost use Rattle.std.specs.Prelude.{List};
    ghost use Rattle.ingest_tree.specs.declared.store_row.StoreRow.{StoreRow};
    ghost use Rattle.ingest_tree.specs.Tree.{rows_of, IsTree};

    ghost Value = { List StoreRow };

    ghost view = { rows_of };

    ghost invariant = { IsTree };
}

/// A root with one row.
fn first_root<L: Ledger>(
    alloc: Global,
    row: SharedRow,
    steps: &mut Steps<L>,
) -> Result<Node<Branch>, NoMemory>
    ensures root { IfOk result (λ root. root ≡ ((row ∷ []) ∷ []) ∷ []) }
    ensures cost { steps.new ≤ steps.old + 3 }
{
    let leaf = lone(alloc, row, steps)?;
    let branch = lone(alloc, leaf, steps)?;
    lone(alloc, branch, steps)
}

/// How many leaves these branches have.
fn leaves_in(branches: &[Branch]) -> u64
    requires { length (leaves_of branches.now) < 2 ^ 64 }
    ensures { result ≡ length (leaves_of branches.now) }
{
    let mut count: u64 = 0;
    for at in 0..branches.len() {
        count += branches[at].len() as u64;
    }
    count
}

/// How many leaves a root has.
fn leaf_count(root: &Node<Branch>) -> u64
    requires stands { Stand IsFilledBranch IsSoundBranch root.now }
    ensures { result ≡ length (leaves_of root.now) }
{
    let _all = root.count();
    let chunks = root.chunks();
    let mut count: u64 = 0;
    for at in 0..chunks.len() {
        count += leaves_in(chunks[at].parts());
    }
    count
}

/// The greater of a number and that of a row, each of which may be there.
fn greater(one: Option<u64>, row: Option<&StoreRow>) -> Option<u64>
    ensures { result ≡ greatest_of one
        (option_map (λ (row : a_row). row.row.number) (option_map (λ row. row.now) row.entry)) }
{
    match (one, row) {
        (one, None) => one,
        (None, Some(row)) => Some(row.row.number),
        (Some(number), Some(row)) => {
            if row.row.number < number {
                one
            } else {
                Some(row.row.number)
            }
        }
    }
}

impl IngestTree {
    /// A tree without rows. It takes no memory.
    pub fn empty() -> IngestTree
        ensures { result ≡ [] }
    {
        IngestTree {
            root: None,
            lengths: Lengths::none(),
        }
    }

    /// How many rows there are. It takes no memory.
    pub fn len(&self) -> u64
        ensures { result ≡ length self.now }
    {
        match &self.root {
            None => 0,
            Some(root) => root.count(),
        }
    }

    /// An equal tree that shares all parts.
    pub fn share(&self, _alloc: Global) -> Result<IngestTree, NoMemory>
        ensures { IfOk result (λ tree. tree ≡ self.now) }
    {
        match &self.root {
            None => Ok(IngestTree {
                root: None,
                lengths: self.lengths,
            }),
            Some(root) => Ok(IngestTree {
                root: Some(root.share()?),
                lengths: self.lengths,
            }),
        }
    }

    /// The tree with the row in place of the older row of its key or prefix. This one stays. A step
    /// is one row, leaf, branch or chunk that is put into a new node or chunk.
    pub fn with<L: Ledger>(
        &self,
        alloc: Global,
        store: StoreId,
        row: Row,
        steps: &mut Steps<L>,
    ) -> Result<IngestTree, NoMemory>
        ensures rows { IfOk result (λ tree. tree ≡ rows_with self.now (store_row store row)) }
        ensures cost { steps.new ≤ steps.old + (260 + length self.now / 4096) }
    {
        let lengths = self.lengths.with(&row.change);
        let row = SharedRow::new(alloc, StoreRow { store, row })?;
        match &self.root {
            None => {
                let root = first_root(alloc, row, steps)?;
                Ok(IngestTree {
                    root: Some(root),
                    lengths,
                })
            }
            Some(root) => {
                let root = root_with(alloc, root, row, steps)?;
                Ok(IngestTree {
                    root: Some(root),
                    lengths,
                })
            }
        }
    }

    /// The same, where the steps are counted from a blank on.
    fn with_from<L: Ledger>(
        &self,
        alloc: Global,
        store: StoreId,
        row: Row,
        blank: Blank,
    ) -> Result<IngestTree, NoMemory>
        requires name { blank.name ≡ L.name }
        requires parts { blank.parts ≡ L.parts }
        requires some { 0 < L.parts }
        ensures { IfOk result (λ tree. tree ≡ rows_with self.now (store_row store row)) }
    {
        let mut steps = Steps::<L>::new(blank);
        self.with(alloc, store, row, &mut steps)
    }

    /// The same for whoever does not count steps.
    pub fn with_row(&self, alloc: Global, store: StoreId, row: Row) -> Result<IngestTree, NoMemory>
        ensures { IfOk result (λ tree. tree ≡ rows_with self.now (store_row store row)) }
    {
        self.with_from::<Brand>(alloc, store, row, Blank::new(1))
    }

    /// The row at a spot.
    pub(crate) fn find(&self, spot: Spot<'_>) -> Option<&StoreRow>
        ensures rising { AreRising self.now }
        ensures row { option_map (λ row. row.now) result
            ≡ found_at (row_at spot.entry) self.now }
    {
        match &self.root {
            None => None,
            Some(root) => root.find_in(spot),
        }
    }

    /// The key's own row, without regard to prefix deletes. It takes no memory.
    pub fn get(&self, store: StoreId, key: &[u8]) -> Option<RowRef<'_>>
        ensures { row_by result ≡ own_at key.now (rows_in store.0 self.now) }
    {
        match self.find(Spot {
            id: store.0 as u128,
            change: ChangeRef::Del(key),
        }) {
            None => None,
            Some(row) => Some(row.lent()),
        }
    }

    /// How many leaves there are. It takes no memory.
    pub fn leaves(&self) -> u64
        ensures most { result ≤ 1 + length self.now / 64 }
        ensures least { length self.now ≤ 128 * result }
    {
        match &self.root {
            None => 0,
            Some(root) => leaf_count(root),
        }
    }

    /// The row at a place.
    pub(crate) fn row_at(&self, place: u64) -> &StoreRow
        requires { place < length self.now }
        ensures { slice_get self.now place ≡ Some result.now }
    {
        match &self.root {
            None => unreachable!(),
            Some(root) => root.at(place),
        }
    }

    /// How many rows stand before a spot.
    pub(crate) fn place(&self, spot: Spot<'_>) -> u64
        ensures rows { AreRowsOfStores self.now }
        ensures count { result ≡ count_before (row_at spot.entry) self.now }
    {
        match &self.root {
            None => 0,
            Some(root) => root.place_in(spot),
        }
    }

    /// All rows, by store id and then prefix deletes by prefix and changes of keys by key. It takes
    /// no memory.
    pub fn iter(&self) -> IngestIter<'_>
        ensures { left_of result ≡ self.now }
    {
        IngestIter {
            tree: self,
            first: 0,
            last: self.len(),
            back: false,
        }
    }

    /// The same in reverse. It takes no memory.
    pub fn iter_back(&self) -> IngestIter<'_>
        ensures { left_of result ≡ reverse self.now }
    {
        IngestIter {
            tree: self,
            first: 0,
            last: self.len(),
            back: true,
        }
    }

    /// The greatest number of a prefix delete of the store that covers the key, by a search for
    /// each length in use. It takes no memory.
    pub fn covered(&self, store: StoreId, key: &[u8]) -> Option<u64>
        ensures { result ≡ covered_at key.now (rows_in store.0 self.now) }
    {
        let end = key.len().min(self.lengths.longest as usize) + 1;
        let mut greatest: Option<u64> = None;
        let mut length = self.lengths.shortest as usize;
        while length < end {
            let (prefix, _) = key.split_at(length);
            let found = self.find(Spot {
                id: store.0 as u128,
                change: ChangeRef::PDel(prefix),
            });
            greatest = greater(greatest, found);
            length += 1;
        }
        greatest
    }

    /// The rows of a store, which share the tree.
    pub fn rows(&self, alloc: Global, store: StoreId) -> Result<StoreRows, NoMemory>
        ensures { IfOk result (λ rows. rows ≡ rows_in store.0 self.now) }
    {
        Ok(StoreRows::of(self.share(alloc)?, store))
    }
}
