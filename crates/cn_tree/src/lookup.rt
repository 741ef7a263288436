//! What sets say of a key, nearest set first.
ghost use Rattle.std.specs.Prelude.{◌≡◌, map, Some};
ghost use Rattle.std.specs.Option.{option_map};
ghost use Rattle.hse_rows.specs.rows.Meaning.{own_at, covered_at};
ghost use Rattle.hse_rows.specs.rows.RowSets.{row_by};
ghost use Rattle.cn_tree.specs.Found.{row_said, first_row};

use hse_rows::{RowRef, RowSet};

/// The row of a key, unless a prefix delete of this number is newer.
fn row_under(row: RowRef<'_>, number: u64) -> Option<RowRef<'_>>
    ensures { Some (row_by result) ≡ row_said (row_by (Some row.entry)) (Some number) }
{
    if row.number < number {
        return None;
    }
    Some(row)
}

/// What a set says of a key. Where it says nothing there is no answer, and where a newer prefix
/// delete covers the key there is no row.
fn row_in<'a, R: RowSet>(set: &'a R, key: &[u8]) -> Option<Option<RowRef<'a>>>
    ensures { option_map row_by result ≡ row_said
        (own_at key.now (R.rows set.now)) (covered_at key.now (R.rows set.now)) }
{
    match (set.find(key), set.covered(key)) {
        (None, None) => None,
        (None, Some(_)) => Some(None),
        (Some(row), None) => Some(Some(row)),
        (Some(row), Some(number)) => Some(row_under(row, number)),
    }
}

/// What the first of these sets that says something of a key says.
pub(crate) fn first_in<'a, R: RowSet>(sets: &'a [R], key: &[u8]) -> Option<Option<RowRef<'a>>>
    ensures { option_map row_by result ≡ first_row key.now (map R.rows sets.now) }
{
    for set in sets {
        match row_in(set, key) {
            None => {}
            Some(row) => return Some(row),
        }
    }
    None
}
