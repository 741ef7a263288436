//! Rows of a layer or of a set.
ghost use Rattle.std.specs.Prelude.{◌≡◌};
ghost use Rattle.cursors.specs.Sources.{source_rows};

use hse_io::NoMemory;
use hse_rows::{RowRef, RowSet, Shared};
use ingest_tree::StoreRows;
use std::alloc::Global;

/// The rows of one store in a layer, or a set of its tree.
#[derive(Drop)]
pub(crate) enum Source<R: Shared> {
    Layer(StoreRows),
    Set(R),
}

impl<R: Shared> RowSet for Source<R> {
    ghost rows = { λ source. source_rows R.rows source };

    fn len(&self) -> u64 {
        match self {
            Source::Layer(rows) => rows.len(),
            Source::Set(set) => set.len(),
        }
    }

    fn row(&self, at: u64) -> RowRef<'_> {
        match self {
            Source::Layer(rows) => rows.row(at),
            Source::Set(set) => set.row(at),
        }
    }

    fn find(&self, key: &[u8]) -> Option<RowRef<'_>> {
        match self {
            Source::Layer(rows) => rows.find(key),
            Source::Set(set) => set.find(key),
        }
    }

    fn covered(&self, key: &[u8]) -> Option<u64> {
        match self {
            Source::Layer(rows) => rows.covered(key),
            Source::Set(set) => set.covered(key),
        }
    }

    fn place(&self, edge: &[u8]) -> u64 {
        match self {
            Source::Layer(rows) => rows.place(edge),
            Source::Set(set) => set.place(edge),
        }
    }

    fn known(&self) {
        match self {
            Source::Layer(rows) => rows.known(),
            Source::Set(set) => set.known(),
        }
    }
}

impl<R: Shared> Shared for Source<R> {
    fn share(&self, alloc: Global) -> Result<Source<R>, NoMemory> {
        match self {
            Source::Layer(rows) => Ok(Source::Layer(rows.share(alloc)?)),
            Source::Set(set) => Ok(Source::Set(set.share(alloc)?)),
        }
    }
}
