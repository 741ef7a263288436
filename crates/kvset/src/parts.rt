//! The rows of a set, lent from its blocks.
ghost use Rattle.std.specs.Prelude.{◌≡◌, ◌<◌, ◌≤◌, ◌+◌, true, is_some, length};
ghost use Rattle.std.specs.Prelude.{map, slice_get, Some};
ghost use Rattle.std.specs.List.{find};
ghost use Rattle.std.specs.Arc.{arc_value};
ghost use Rattle.hse_rows.specs.rows.Meaning.{own_at, covered_at};
ghost use Rattle.hse_rows.specs.rows.RowSets.{AreRows, row_of, row_by, place_of};
ghost use Rattle.kblock.specs.Entries.{entry_of};
ghost use Rattle.kblock.specs.Opened.{has_key};
ghost use Rattle.kvset.specs.Keys.{all_keys};
ghost use Rattle.kvset.specs.Rows.{is_met, place_at, row_found, row_of_key, value_of};
ghost use Rattle.kvset.specs.Parts.{rows_in, IsSet};

use crate::keys::{KeyPart, find_key, key_at, keys_below};
use hse_rows::{ChangeRef, RowRef};
use kblock::{KeyEntry, ValuePlace};
use prefix_delete::PrefixList;
use std::sync::Arc;
use vblock::ValueBlock;

/// The blocks of a set.
#[derive(Drop)]
pub(crate) struct Parts {
    /// The slots of its blocks: of prefix deletes, of keys, of values.
    pub(crate) slots: Vec<u32>,
    /// How many blocks of prefix deletes there are.
    pub(crate) prefix_blocks: u32,
    pub(crate) prefixes: PrefixList,
    pub(crate) keys: Vec<KeyPart>,
    /// How many keys there are.
    pub(crate) count: u64,
    pub(crate) values: Vec<Arc<ValueBlock>>,
}

/// The value at a place, which is there.
fn value(values: &[Arc<ValueBlock>], place: ValuePlace) -> &[u8]
    requires { is_some (value_of (map arc_value values.now) place) ≡ true }
    ensures { value_of (map arc_value values.now) place ≡ Some result.now }
{
    values[place.block as usize].lent(place.offset, place.len)
}

/// The row of a key, whose value is there.
fn row_of<'s>(values: &'s [Arc<ValueBlock>], entry: KeyEntry<'s>) -> RowRef<'s>
    requires { is_met (map arc_value values.now) entry.value ≡ true }
    ensures { row_of result ≡ row_of_key (map arc_value values.now) (entry_of entry.entry) }
{
    let change = match entry.value {
        Some(place) => ChangeRef::Put(entry.key, value(values, place)),
        None => ChangeRef::Del(entry.key),
    };
    RowRef {
        number: entry.number,
        change,
    }
}

/// How many rows there are.
pub(crate) fn rows_len(parts: &Parts) -> u64
    requires { IsSet parts.now }
    ensures { result ≡ length (rows_in parts.now) }
{
    parts.prefixes.len() + parts.count
}

/// The row at a place.
pub(crate) fn row_at(parts: &Parts, at: u64) -> RowRef<'_>
    requires set { IsSet parts.now }
    requires within { at < length (rows_in parts.now) }
    ensures { slice_get (rows_in parts.now) at ≡ Some (row_of result) }
{
    let before = parts.prefixes.len();
    if at < before {
        let (prefix, number) = parts.prefixes.at(at);
        return RowRef {
            number,
            change: ChangeRef::PDel(prefix.bytes()),
        };
    }
    row_of(&parts.values, key_at(&parts.keys, at - before))
}

/// The row of a key.
pub(crate) fn find_row<'s>(parts: &'s Parts, key: &[u8]) -> Option<RowRef<'s>>
    requires { IsSet parts.now }
    ensures { row_by result ≡ own_at key.now (rows_in parts.now) }
{
    match find_key(&parts.keys, key) {
        Some(entry) => Some(row_of(&parts.values, entry)),
        None => None,
    }
}

/// The greatest number of a prefix delete that covers a key.
pub(crate) fn covering(parts: &Parts, key: &[u8]) -> Option<u64>
    requires { IsSet parts.now }
    ensures { result ≡ covered_at key.now (rows_in parts.now) }
{
    parts.prefixes.covers(key)
}

/// The first place of a key's row at or after an edge.
pub(crate) fn place_of(parts: &Parts, edge: &[u8]) -> u64
    requires { IsSet parts.now }
    ensures { result ≡ place_of edge.now (rows_in parts.now) }
{
    parts.prefixes.len() + keys_below(&parts.keys, edge)
}

/// Tells that the rows are in order.
pub(crate) fn are_rows(parts: &Parts)
    requires { IsSet parts.now }
    ensures { AreRows (rows_in parts.now) }
{
    let _count = parts.prefixes.len();
}

/// Where the value of the row at a place stands; none where it is no put.
pub(crate) fn value_place_at(parts: &Parts, at: u64) -> Option<ValuePlace>
    requires set { IsSet parts.now }
    requires within { at < length (rows_in parts.now) }
    ensures { result ≡ place_at parts.now.prefixes (all_keys parts.now.keys.items) at }
{
    let before = parts.prefixes.len();
    if at < before {
        return None;
    }
    key_at(&parts.keys, at - before).value
}
