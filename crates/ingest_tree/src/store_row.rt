//! A row with its store.
ghost use Rattle.std.specs.Prelude.{◌≡◌, IfOk};
ghost use Rattle.hse_rows.specs.writes.Change.{change_of, target, FitsLimits};
ghost use Rattle.hse_rows.specs.writes.NormalForm.{rank};
ghost use Rattle.hse_rows.specs.rows.RowSets.{row_of};
ghost use Rattle.hse_rows.specs.rows.Newest.{row_cmp};
ghost use Rattle.ingest_tree.specs.Rows.{row_numbered, item_of, store_row_cmp, row_at};
ghost use Rattle.ingest_tree.specs.StoreRows.{first_at};
ghost use Rattle.ingest_tree.specs.Marks.{front_of, mark_of};

use crate::mark::{Mark, front_with};
use hse_io::NoMemory;
use hse_rows::{ChangeRef, Row, RowRef, StoreId};
use std::alloc::Global;
use std::cmp::Ordering;
use std::marker::Model;
use std::sync::Arc;

/// A row of the store with this id.
#[derive(Drop)]
pub struct StoreRow {
    pub store: StoreId,
    pub row: Row,
}

/// Where a row of this key or prefix of the store of this id stands.
#[derive(Clone, Copy, Debug, PartialEq, Eq)]
pub(crate) struct Spot<'a> {
    pub id: u128,
    pub change: ChangeRef<'a>,
}

/// The key or prefix.
fn target_of<'a>(change: ChangeRef<'a>) -> &'a [u8]
    ensures { result.now ≡ target (change_of change.entry) }
{
    match change {
        ChangeRef::Put(key, _) => key,
        ChangeRef::Del(key) => key,
        ChangeRef::PDel(prefix) => prefix,
    }
}

/// 0 for a prefix delete, 1 for a change of a key.
fn rank_of(change: ChangeRef<'_>) -> u8
    ensures { result ≡ rank (change_of change.entry) }
{
    match change {
        ChangeRef::PDel(_) => 0,
        _ => 1,
    }
}

/// How two changes of one store stand to each other in the order of rows.
fn order_changes(one: ChangeRef<'_>, other: ChangeRef<'_>) -> Ordering
    ensures { result ≡ row_cmp (row_numbered 0 (change_of one.entry)) (row_numbered 0 (change_of other.entry)) }
{
    match rank_of(one).cmp(&rank_of(other)) {
        Ordering::Less => Ordering::Less,
        Ordering::Greater => Ordering::Greater,
        Ordering::Equal => target_of(one).cmp(target_of(other)),
    }
}

impl<'a> Spot<'a> {
    /// Before all rows of a store.
    pub fn before(id: u128) -> Spot<'a>
        ensures { row_at result ≡ first_at id }
    {
        Spot {
            id,
            change: ChangeRef::PDel(&[]),
        }
    }

    /// The rank of the change with the first bytes of its key or prefix.
    pub fn front(self) -> u64
        ensures { result ≡ front_of (change_of self.entry.change) }
    {
        front_with(rank_of(self.change), target_of(self.change))
    }

    /// How it stands to another in the order of rows.
    pub fn order(self, other: Spot<'_>) -> Ordering
        ensures { result ≡ store_row_cmp (row_at self.entry) (row_at other.entry) }
    {
        match self.id.cmp(&other.id) {
            Ordering::Less => Ordering::Less,
            Ordering::Greater => Ordering::Greater,
            Ordering::Equal => order_changes(self.change, other.change),
        }
    }
}

impl StoreRow {
    /// Where it stands.
    pub(crate) fn spot(&self) -> Spot<'_>
        ensures store { (row_at result).store ≡ self.now.store }
        ensures change { change_of result.change ≡ self.now.row.change }
        ensures within { FitsLimits self.now.row.change }
    {
        Spot {
            id: self.store.0 as u128,
            change: self.row.change.lent(),
        }
    }

    /// Its mark.
    fn mark(&self) -> Mark
        ensures { result ≡ mark_of self.now }
    {
        Mark {
            id: self.store.0,
            front: self.spot().front(),
        }
    }

    /// The row, with its bytes lent.
    pub(crate) fn lent(&self) -> RowRef<'_>
        ensures { row_of result ≡ self.now.row }
    {
        RowRef {
            number: self.row.number,
            change: self.row.change.lent(),
        }
    }
}

impl StoreRow {
    /// The store's id and the row, with its bytes lent.
    pub(crate) fn item(&self) -> (StoreId, RowRef<'_>)
        ensures { item_of result ≡ self.now }
    {
        (self.store, self.lent())
    }
}

/// A row with its store that several leaves share, and its mark.
#[derive(Drop)]
pub(crate) struct SharedRow {
    row: Arc<StoreRow>,
    mark: Mark,
}

impl Model for SharedRow {
    ghost use Rattle.std.specs.Arc.{arc_value};
    ghost use Rattle.ingest_tree.specs.declared.store_row.StoreRow.{StoreRow};

    ghost Value = { StoreRow };

    ghost use Rattle.std.specs.Prelude.{◌≡◌};
    ghost use Rattle.ingest_tree.specs.Marks.{mark_of};

    ghost view = { λ s. arc_value s.row };

    ghost invariant = { λ s. s.mark ≡ mark_of (arc_value s.row) };
}

impl SharedRow {
    pub fn new(alloc: Global, row: StoreRow) -> Result<SharedRow, NoMemory>
        ensures { IfOk result (λ s. s ≡ row) }
    {
        let mark = row.mark();
        let row = Arc::new(alloc, row)?;
        Ok(SharedRow { row, mark })
    }

    pub fn row(&self) -> &StoreRow
        ensures { result.now ≡ self.now }
    {
        &self.row
    }

    pub fn mark(&self) -> Mark
        ensures { result ≡ mark_of self.now }
    {
        self.mark
    }

    /// One more owner.
    pub fn twin(&self) -> Result<SharedRow, NoMemory>
        ensures { IfOk result (λ s. s ≡ self.now) }
    {
        Ok(SharedRow {
            row: self.row.clone()?,
            mark: self.mark,
        })
    }
}
