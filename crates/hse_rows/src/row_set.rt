//! Rows in order, however they are kept.
ghost use Rattle.std.specs.Prelude.{◌≡◌, ◌<◌, List, length, slice_get, Some, IfOk};
ghost use Rattle.hse_rows.specs.declared.row.Row.{Row as a_row};
ghost use Rattle.hse_rows.specs.rows.Meaning.{own_at, covered_at};
ghost use Rattle.hse_rows.specs.rows.RowSets.{AreRows, row_of, row_by, place_of};

use crate::RowRef;
use hse_io::NoMemory;
use std::alloc::Global;

/// A list of rows: the prefix deletes by prefix, then the changes of keys by key, each key and each
/// prefix once. No call takes memory.
pub trait RowSet {
    /// The rows, however they are kept.
    ghost rows: { Self → List a_row };

    /// How many rows there are.
    fn len(&self) -> u64
        ensures { result ≡ length (rows self.now) };

    /// The row at a place.
    fn row(&self, at: u64) -> RowRef<'_>
        requires { at < length (rows self.now) }
        ensures { slice_get (rows self.now) at ≡ Some (row_of result) };

    /// The key's own row, without regard to prefix deletes.
    fn find(&self, key: &[u8]) -> Option<RowRef<'_>>
        ensures { row_by result ≡ own_at key.now (rows self.now) };

    /// The greatest number of a prefix delete that covers the key.
    fn covered(&self, key: &[u8]) -> Option<u64>
        ensures { result ≡ covered_at key.now (rows self.now) };

    /// The first place of a key's row at or after the edge, and `len` where there is none.
    fn place(&self, edge: &[u8]) -> u64
        ensures { result ≡ place_of edge.now (rows self.now) };

    /// Does nothing; its contract says what the rows are.
    fn known(&self)
        ensures { AreRows (rows self.now) };
}

impl<R: RowSet> RowSet for &R {
    ghost rows = { λ set. R.rows set.now };

    fn len(&self) -> u64 {
        (**self).len()
    }

    fn row(&self, at: u64) -> RowRef<'_> {
        (**self).row(at)
    }

    fn find(&self, key: &[u8]) -> Option<RowRef<'_>> {
        (**self).find(key)
    }

    fn covered(&self, key: &[u8]) -> Option<u64> {
        (**self).covered(key)
    }

    fn place(&self, edge: &[u8]) -> u64 {
        (**self).place(edge)
    }

    fn known(&self) {
        (**self).known()
    }
}

/// A set of rows whose parts several owners share.
pub trait Shared: RowSet + Drop + Sized {
    /// One more owner of the same value, which shares its parts.
    fn share(&self, alloc: Global) -> Result<Self, NoMemory>
        ensures { IfOk result (λ twin. twin ≡ self.now) };
}
