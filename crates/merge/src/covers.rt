//! Prefix deletes that cover a key, in several sources.
ghost use Rattle.std.specs.Prelude.{◌≡◌, map, Some, None, if◌then◌else◌};
ghost use Rattle.std.specs.List.{AllByRecursion};
ghost use Rattle.hse_rows.specs.rows.Meaning.{covered_at, greater as greatest_of};
ghost use Rattle.hse_rows.specs.rows.RowSets.{AreRows, row_of, row_by};
ghost use Rattle.row_laws.specs.Next.{covered_in, row_lasting};

use hse_rows::{ChangeRef, RowRef, RowSet};

/// The greater of two numbers that may be there.
fn greater(one: Option<u64>, other: Option<u64>) -> Option<u64>
    ensures { result ≡ greatest_of one other }
{
    match (one, other) {
        (None, _) => other,
        (Some(_), None) => one,
        (Some(number), Some(more)) => {
            if more < number {
                return one;
            }
            other
        }
    }
}

/// The greatest number of a prefix delete of a source that covers the key. A source whose first row is
/// of a key has none, and is not asked.
fn cover_in<R: RowSet>(source: &R, key: &[u8]) -> Option<u64>
    ensures { result ≡ covered_at key.now (R.rows source.now) }
{
    source.known();
    if source.len() == 0 {
        return None;
    }
    match source.row(0).change {
        ChangeRef::Put(_, _) => None,
        ChangeRef::Del(_) => None,
        ChangeRef::PDel(_) => source.covered(key),
    }
}

/// The greatest number of a prefix delete that covers the key, in any source.
pub(crate) fn cover<R: RowSet>(sources: &[R], key: &[u8]) -> Option<u64>
    ensures { result ≡ covered_in key.now (map R.rows sources.now) }
{
    let mut greatest: Option<u64> = None;
    for source in sources {
        greatest = greater(greatest, cover_in(source, key));
    }
    greatest
}

/// Whether a row lasts: no prefix delete of a greater number covers its key.
pub(crate) fn is_lasting(row: RowRef<'_>, cover: Option<u64>) -> bool
    ensures { row_lasting (Some (row_of row.entry)) cover
        ≡ (if result then Some (row_of row.entry) else None) }
{
    match cover {
        None => true,
        Some(number) => number <= row.number,
    }
}

/// Does nothing; its contract says what the rows of sources are.
pub(crate) fn are_known<R: RowSet>(sources: &[R])
    ensures { AllByRecursion AreRows (map R.rows sources.now) }
{
    for source in sources {
        source.known();
    }
}
