//! Rows that several owners share.
ghost use Rattle.std.specs.Prelude.{◌≡◌};

use crate::sorted_rows::SortedRows;
use hse_io::NoMemory;
use hse_rows::{RowRef, RowSet, Shared};
use std::alloc::Global;
use std::marker::Model;
use std::sync::Arc;

/// Rows in order, with several owners.
#[derive(Drop)]
pub struct SharedRows {
    rows: Arc<SortedRows>,
}

impl Model for SharedRows {
    ghost use Rattle.std.specs.Prelude.{List};
    ghost use Rattle.std.specs.Arc.{arc_value};
    ghost use Rattle.hse_rows.specs.declared.row.Row.{Row};

    ghost Value = { List Row };

    ghost view = { λ set. arc_value set.rows };
}

impl RowSet for SharedRows {
    ghost rows = { λ set. set };

    fn len(&self) -> u64 {
        self.rows.len()
    }

    fn row(&self, at: u64) -> RowRef<'_> {
        self.rows.row(at)
    }

    fn find(&self, key: &[u8]) -> Option<RowRef<'_>> {
        self.rows.find(key)
    }

    fn covered(&self, key: &[u8]) -> Option<u64> {
        self.rows.covered(key)
    }

    fn place(&self, edge: &[u8]) -> u64 {
        self.rows.place(edge)
    }

    fn known(&self) {
        self.rows.known()
    }
}

impl Shared for SharedRows {
    fn share(&self, _alloc: Global) -> Result<SharedRows, NoMemory> {
        Ok(SharedRows {
            rows: self.rows.clone()?,
        })
    }
}
