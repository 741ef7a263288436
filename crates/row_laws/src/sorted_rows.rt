//! Rows in a sorted vector.
ghost use Rattle.std.specs.Prelude.{◌≡◌, length, Some};
ghost use Rattle.std.specs.List.Sorted.{IsBinarySearchResult, IsSearchInRange, IsStrictlySortedBy, IsPartitionPoint};
ghost use Rattle.hse_rows.specs.rows.Newest.{row_cmp};
ghost use Rattle.hse_rows.specs.rows.Meaning.{own_at, covered_at, greater as greatest_of};
ghost use Rattle.hse_rows.specs.rows.RowSets.{AreRows, row_of, row_by, place_of, key_row};

use hse_rows::{Change, Row, RowRef, RowSet};
use std::cmp::Ordering;
use std::marker::Model;

/// Rows in order, in a vector.
#[derive(Drop)]
pub struct SortedRows {
    rows: Vec<Row>,
}

impl Model for SortedRows {
    ghost use Rattle.std.specs.Prelude.{List};
    ghost use Rattle.hse_rows.specs.declared.row.Row.{Row};
    ghost use Rattle.hse_rows.specs.rows.RowSets.{AreRows};

    ghost Value = { List Row };

    ghost view = { λ set. set.rows.items };

    ghost invariant = { λ set. AreRows set.rows.items };
}

/// How a row stands to the rows of a key.
fn stands(row: &Row, key: &[u8]) -> Ordering
    ensures { result ≡ row_cmp row.now (key_row key.now) }
{
    match &row.change {
        Change::Put(own, _) => own.bytes().cmp(key),
        Change::Del(own) => own.bytes().cmp(key),
        Change::PDel(_) => Ordering::Less,
    }
}

/// The row, with its bytes lent.
fn lent(row: &Row) -> RowRef<'_>
    ensures { row_of result ≡ row.now }
{
    RowRef {
        number: row.number,
        change: row.change.lent(),
    }
}

/// Where a row of the key stands, or else where it would.
fn place_in(rows: &[Row], key: &[u8]) -> Result<usize, usize>
    ensures bound { IsSearchInRange result (length rows.now) }
    ensures position { IsBinarySearchResult (λ row. row_cmp row (key_row key.now)) rows.now result }
{
    rows.binary_search_by(|row| stands(row, key))
}

/// The key's own row.
fn find_in<'a>(rows: &'a [Row], key: &[u8]) -> Option<RowRef<'a>>
    requires { IsStrictlySortedBy row_cmp rows.now }
    ensures { row_by result ≡ own_at key.now rows.now }
{
    match place_in(rows, key) {
        Ok(at) => Some(lent(&rows[at])),
        Err(_) => None,
    }
}

/// The greatest number of a prefix delete that covers the key.
fn covered_in(rows: &[Row], key: &[u8]) -> Option<u64>
    ensures { result ≡ covered_at key.now rows.now }
{
    let mut greatest: Option<u64> = None;
    for row in rows {
        if let Change::PDel(prefix) = &row.change {
            if prefix.covers(key) {
                greatest = greater(greatest, row.number);
            }
        }
    }
    greatest
}

/// The greater of a number and one that may be there.
fn greater(one: Option<u64>, other: u64) -> Option<u64>
    ensures { result ≡ greatest_of one (Some other) }
{
    match one {
        Some(number) => { if other < number { one } else { Some(other) } }
        None => Some(other),
    }
}

/// The first place of a key's row at or after the edge.
fn first_place(rows: &[Row], edge: &[u8]) -> usize
    requires { IsStrictlySortedBy row_cmp rows.now }
    ensures { result ≡ place_of edge.now rows.now }
{
    match place_in(rows, edge) {
        Ok(at) => at,
        Err(at) => at,
    }
}

impl RowSet for SortedRows {
    ghost rows = { λ set. set };

    fn len(&self) -> u64 {
        self.rows.len() as u64
    }

    fn row(&self, at: u64) -> RowRef<'_> {
        lent(&self.rows[at as usize])
    }

    fn find(&self, key: &[u8]) -> Option<RowRef<'_>> {
        find_in(&self.rows, key)
    }

    fn covered(&self, key: &[u8]) -> Option<u64> {
        covered_in(&self.rows, key)
    }

    fn place(&self, edge: &[u8]) -> u64 {
        first_place(&self.rows, edge) as u64
    }

    fn known(&self) {
        let _rows = &self.rows;
    }
}
