//! What a merged row is to a cursor.
ghost use Rattle.std.specs.Prelude.{◌≡◌, IsTrue, true};
ghost use Rattle.std.specs.Option.{option_map};
ghost use Rattle.hse_rows.specs.rows.RowSets.{row_of};
ghost use Rattle.hse_rows.specs.writes.Change.{covers};
ghost use Rattle.hse_rows.specs.script.Cursor.{is_in_range};
ghost use Rattle.merge.specs.Places.{direction_of};
ghost use Rattle.cursors.specs.Pairs.{is_asked, IsEnd, IsKind};

use hse_rows::{ChangeRef, RowRef};

/// What a merged row is to a cursor.
#[derive(Clone, Copy, Debug, PartialEq, Eq)]
pub(crate) enum Kind {
    /// A pair that it asks for.
    Pair,
    /// No pair that it asks for, and some may follow.
    Gap,
    /// Behind all that it asks for.
    End,
}

/// What a cursor asks for: keys that begin with a filter, up to a last one where there is one. It may
/// know bytes behind all keys that begin with the filter.
#[derive(Clone, Copy)]
pub(crate) struct Asked<'a> {
    pub(crate) filter: &'a [u8],
    pub(crate) end: Option<&'a [u8]>,
    pub(crate) last: Option<&'a [u8]>,
    pub(crate) reverse: bool,
}

/// Whether a key is not greater than the last one.
fn is_within(key: &[u8], last: Option<&[u8]>) -> bool
    ensures { result ≡ is_in_range (option_map (λ last. last.now) last.entry) key.now }
{
    match last {
        None => true,
        Some(last) => key.cmp(last).is_le(),
    }
}

/// Whether a cursor asks for a key.
fn is_wanted(key: &[u8], asked: Asked<'_>) -> bool
    ensures { result ≡ is_asked asked.entry.filter.now
        (option_map (λ last. last.now) asked.entry.last) key.now }
{
    if !key.starts_with(asked.filter) {
        return false;
    }
    is_within(key, asked.last)
}

/// Whether a key is behind all that a cursor asks for, which going up it is behind the filter or the
/// last key.
fn is_behind(key: &[u8], asked: Asked<'_>) -> bool
    ensures { IsTrue result → IsEnd (direction_of asked.entry.reverse) asked.entry.filter.now
        (option_map (λ last. last.now) asked.entry.last) key.now }
{
    if asked.reverse {
        return key.cmp(asked.filter).is_lt();
    }
    if !is_within(key, asked.last) {
        return true;
    }
    if key.starts_with(asked.filter) {
        return false;
    }
    key.cmp(asked.filter).is_gt()
}

/// What a merged row is to a cursor.
pub(crate) fn kind_of(row: RowRef<'_>, asked: Asked<'_>) -> Kind
    ensures { IsKind (direction_of asked.entry.reverse) asked.entry.filter.now
        (option_map (λ last. last.now) asked.entry.last) (row_of row.entry) result }
{
    match row.change {
        ChangeRef::Put(key, _) => {
            if is_wanted(key, asked) {
                return Kind::Pair;
            }
            if is_behind(key, asked) {
                return Kind::End;
            }
            Kind::Gap
        }
        ChangeRef::Del(key) => {
            if is_behind(key, asked) {
                return Kind::End;
            }
            Kind::Gap
        }
        ChangeRef::PDel(_) => Kind::Gap,
    }
}
