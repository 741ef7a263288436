//! The active layer of a log, and the greatest store id that it names.
ghost use Rattle.std.specs.Prelude.{◌≡◌, OnOk};
ghost use Rattle.view.specs.Commits.{with_writes};
ghost use Rattle.recovery.specs.Layer.{IsGreatestNamed, IsGreatestOf, IsLayerOf};

use hse_io::NoMemory;
use hse_rows::{Row, Write, normal_forms_are_in_order};
use ingest_tree::IngestTree;
use std::alloc::Global;
use wal::{Commit, TakeCommits};

/// The rows of a log's commits, each of which is put there as soon as it is read, and the greatest
/// store id that their changes name, or 0.
#[derive(Drop)]
pub(crate) struct ActiveLayer {
    pub(crate) alloc: Global,
    pub(crate) rows: IngestTree,
    pub(crate) named: u64,
}

impl ActiveLayer {
    /// Puts the rows of these writes there, all of one number.
    fn put(&mut self, number: u64, writes: Vec<Write>) -> Result<(), NoMemory>
        ensures rows { OnOk result (self.new.rows ≡ with_writes number self.old.rows writes.items) }
        ensures named { OnOk result (IsGreatestOf self.old.named writes.items self.new.named) }
    {
        for write in writes {
            self.named = self.named.max(write.store.0);
            let row = Row {
                number,
                change: write.change,
            };
            self.rows = self.rows.with_row(self.alloc, write.store, row)?;
        }
        Ok(())
    }
}

impl TakeCommits for ActiveLayer {
    ghost took = { λ layer entries.
        IsLayerOf entries layer.rows × IsGreatestNamed entries layer.named };

    fn take(&mut self, commit: Commit) -> Result<(), NoMemory> {
        normal_forms_are_in_order();
        let _count = commit.writes.len();
        self.put(commit.number, commit.writes.into_writes())
    }
}
