//! The rows of one store in a tree.
ghost use Rattle.std.specs.Prelude.{◌≡◌};
ghost use Rattle.ingest_tree.specs.Rows.{rows_in};

use crate::store_row::Spot;
use crate::tree::IngestTree;
use hse_io::NoMemory;
use hse_rows::{ChangeRef, RowRef, RowSet, Shared, StoreId};
use std::alloc::Global;
use std::marker::Model;

/// The rows of one store in a tree, which it shares.
#[derive(Drop)]
pub struct StoreRows {
    tree: IngestTree,
    store: StoreId,
    first: u64,
    count: u64,
}

impl Model for StoreRows {
    ghost use Rattle.std.specs.Prelude.{List};
    ghost use Rattle.hse_rows.specs.declared.row.Row.{Row};
    ghost use Rattle.ingest_tree.specs.OneStore.{rows_of, IsOneStore};

    ghost Value = { List Row };

    ghost view = { rows_of };

    ghost invariant = { IsOneStore };
}

impl StoreRows {
    /// The rows of this store.
    pub(crate) fn of(tree: IngestTree, store: StoreId) -> StoreRows
        ensures { result ≡ rows_in store.0 tree }
    {
        let id = store.0 as u128;
        let first = tree.place(Spot::before(id));
        let count = tree.place(Spot::before(id + 1)) - first;
        StoreRows {
            tree,
            store,
            first,
            count,
        }
    }
}

impl RowSet for StoreRows {
    ghost rows = { λ set. set };

    fn len(&self) -> u64 {
        self.count
    }

    fn row(&self, at: u64) -> RowRef<'_> {
        let _all = self.tree.len();
        self.tree.row_at(self.first + at).lent()
    }

    fn find(&self, key: &[u8]) -> Option<RowRef<'_>> {
        self.tree.get(self.store, key)
    }

    fn covered(&self, key: &[u8]) -> Option<u64> {
        self.tree.covered(self.store, key)
    }

    fn place(&self, edge: &[u8]) -> u64 {
        let before = self.tree.place(Spot {
            id: self.store.0 as u128,
            change: ChangeRef::Del(edge),
        });
        before - self.first
    }

    fn known(&self) {
        let _place = self.tree.place(Spot::before(0));
    }
}

impl Shared for StoreRows {
    fn share(&self, alloc: Global) -> Result<StoreRows, NoMemory> {
        Ok(StoreRows {
            tree: self.tree.share(alloc)?,
            store: self.store,
            first: self.first,
            count: self.count,
        })
    }
}
