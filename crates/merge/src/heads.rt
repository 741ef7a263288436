//! The next row of each source, and the soonest of them.
ghost use Rattle.std.specs.Prelude.{◌≡◌, ◌<◌, if◌then◌else◌, true, false, IfSome, Some};
ghost use Rattle.std.specs.Prelude.{length as number_of};
ghost use Rattle.hse_rows.specs.writes.Change.{target};
ghost use Rattle.hse_rows.specs.rows.Meaning.{is_own};
ghost use Rattle.hse_rows.specs.rows.RowSets.{row_of, row_by};
ghost use Rattle.std.specs.Ordering.{is_lt};
ghost use Rattle.hse_rows.specs.script.Cursor.{direction_cmp};
ghost use Rattle.row_laws.specs.Merging.{is_key_row};
ghost use Rattle.merge.specs.Places.{direction_of, head_from, index_from, passed, sooner};

use hse_rows::{ChangeRef, RowRef, RowSet};

/// The key or prefix of a row.
pub(crate) fn key_of(row: RowRef<'_>) -> &[u8]
    ensures { result.now ≡ target (row_of row.entry).change }
{
    match row.change {
        ChangeRef::Put(key, _) => key,
        ChangeRef::Del(key) => key,
        ChangeRef::PDel(prefix) => prefix,
    }
}

/// Whether a row is of a key.
fn has_key(row: RowRef<'_>) -> bool
    ensures { result ≡ is_key_row (row_of row.entry) }
{
    match row.change {
        ChangeRef::Put(_, _) => true,
        ChangeRef::Del(_) => true,
        ChangeRef::PDel(_) => false,
    }
}

/// Whether a row is of this key.
pub(crate) fn is_of(row: RowRef<'_>, key: &[u8]) -> bool
    ensures { result ≡ is_own key.now (row_of row.entry) }
{
    match row.change {
        ChangeRef::Put(own, _) => own == key,
        ChangeRef::Del(own) => own == key,
        ChangeRef::PDel(_) => false,
    }
}

/// The index of the row that comes next from a place.
pub(crate) fn index_of(place: u64, reverse: bool) -> u64
    ensures { result ≡ index_from (direction_of reverse) place }
{
    if !reverse {
        return place;
    }
    if place == 0 {
        return 0;
    }
    place - 1
}

/// The row that comes next from a place.
pub(crate) fn head<'a, R: RowSet>(source: &'a R, place: u64, reverse: bool) -> Option<RowRef<'a>>
    ensures { row_by result ≡ head_from (direction_of reverse) place (R.rows source.now) }
{
    if reverse {
        return head_below(source, place);
    }
    head_above(source, place)
}

/// The row that stands at a place.
fn head_above<'a, R: RowSet>(source: &'a R, place: u64) -> Option<RowRef<'a>>
    ensures row { row_by result ≡ head_from (direction_of false) place (R.rows source.now) }
    ensures within { IfSome result (λ _. place < number_of (R.rows source.now)) }
{
    if place >= source.len() {
        return None;
    }
    Some(source.row(place))
}

/// The row of a key that stands before a place.
fn head_below<'a, R: RowSet>(source: &'a R, place: u64) -> Option<RowRef<'a>>
    ensures { row_by result ≡ head_from (direction_of true) place (R.rows source.now) }
{
    if place == 0 {
        return None;
    }
    if place > source.len() {
        return None;
    }
    let row = source.row(place - 1);
    if !has_key(row) {
        return None;
    }
    Some(row)
}

/// Whether a key comes before another.
fn comes_before(one: &[u8], other: &[u8], reverse: bool) -> bool
    ensures { result ≡ is_lt (direction_cmp (direction_of reverse) one.now other.now) }
{
    if reverse {
        return one.cmp(other).is_gt();
    }
    one.cmp(other).is_lt()
}

/// Whether a row comes before one that may be there.
pub(crate) fn is_sooner(row: RowRef<'_>, best: Option<RowRef<'_>>, reverse: bool) -> bool
    ensures { sooner (direction_of reverse) (row_by best.entry) (Some (row_of row.entry))
        ≡ (if result then Some (row_of row.entry) else row_by best.entry) }
{
    match best {
        None => true,
        Some(other) => comes_before(key_of(row), key_of(other), reverse),
    }
}

/// The place behind a key, where the next row is of that key.
pub(crate) fn place_past<R: RowSet>(source: &R, place: u64, key: &[u8], reverse: bool) -> u64
    ensures { result ≡ passed (direction_of reverse) key.now (R.rows source.now) place }
{
    if reverse {
        return place_below(source, place, key);
    }
    place_above(source, place, key)
}

/// The same going up.
fn place_above<R: RowSet>(source: &R, place: u64, key: &[u8]) -> u64
    ensures { result ≡ passed (direction_of false) key.now (R.rows source.now) place }
{
    let len = source.len();
    match head_above(source, place) {
        None => place,
        Some(row) => {
            if !is_of(row, key) {
                return place;
            }
            if place < len { place + 1 } else { place }
        }
    }
}

/// The same going down.
fn place_below<R: RowSet>(source: &R, place: u64, key: &[u8]) -> u64
    ensures { result ≡ passed (direction_of true) key.now (R.rows source.now) place }
{
    match head_below(source, place) {
        None => place,
        Some(row) => {
            if !is_of(row, key) {
                return place;
            }
            if place == 0 { 0 } else { place - 1 }
        }
    }
}
