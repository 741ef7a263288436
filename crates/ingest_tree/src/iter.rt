//! The rows of a tree one after another.
ghost use Rattle.std.specs.Prelude.{◌≤◌, length};

use crate::tree::IngestTree;
use hse_rows::{RowRef, StoreId};

/// The rows by store id and then in the order of a set's rows, or the same in reverse.
#[derive(Drop)]
pub struct IngestIter<'a> {
    pub(crate) tree: &'a IngestTree,
    pub(crate) first: u64,
    pub(crate) last: u64,
    pub(crate) back: bool,
    ghost rising: { first ≤ last },
    ghost within: { last ≤ length tree.now },
}

impl<'a> Iterator for IngestIter<'a> {
    type Item = (StoreId, RowRef<'a>);

    ghost use Rattle.std.specs.Iterator.{YieldsFirstBy, item_count};
    ghost use Rattle.ingest_tree.specs.Rows.{item_of};
    ghost use Rattle.ingest_tree.specs.Iteration.{left_of};

    ghost next_gives = { YieldsFirstBy item_of left_of };

    ghost remaining = { item_count left_of };

    fn next(&mut self) -> Option<(StoreId, RowRef<'a>)> {
        if self.first == self.last {
            return None;
        }
        if self.back {
            self.last -= 1;
            return Some(self.tree.row_at(self.last).item());
        }
        let row = self.tree.row_at(self.first);
        self.first += 1;
        Some(row.item())
    }
}
