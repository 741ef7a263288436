//! A part of the tree: a row, a leaf or a branch.
ghost use Rattle.std.specs.Prelude.{◌≡◌, ◌≤◌, ◌<◌, ◌+◌, ◌*◌, ℕ};
ghost use Rattle.std.specs.Prelude.{List, [], ◌∷◌, length, slice_get, Some, IfOk};
ghost use Rattle.std.specs.List.{flat_map};
ghost use Rattle.std.specs.Option.{option_map};
ghost use Rattle.ingest_tree.specs.declared.store_row.StoreRow.{StoreRow as a_row};
ghost use Rattle.ingest_tree.specs.Rows.{AreRising, row_at, rows_with, found_at, count_before};
ghost use Rattle.ingest_tree.specs.Parts.{parts_of, Grows};
ghost use Rattle.ingest_tree.specs.Marks.{mark_of};
ghost use Rattle.ingest_tree.specs.declared.mark.Mark.{Mark as a_mark};

use crate::builder::Twin;
use crate::mark::Mark;
use crate::piece::Piece;
use crate::steps::Steps;
use crate::store_row::{SharedRow, Spot, StoreRow};
use hse_io::NoMemory;
use std::alloc::Global;
use std::cmp::Ordering;
use std::sync::ledger::Ledger;

/// A part, and the second of the two that it was split into.
pub(crate) type Grown<T> = (T, Option<T>);

/// A piece that takes one row more by becoming another, or two.
pub(crate) trait Part: Piece + Twin {
    /// Whether each node in it has at least half its room full.
    ghost filled: { Self → Type 0 };

    /// How many rows a filled one has at least.
    ghost weight: { ℕ };

    /// How many steps one more row takes at most.
    ghost cost: { ℕ };

    /// The row at a place.
    fn at(&self, place: u64) -> &StoreRow
        requires { place < length (Self.rows self.now) }
        ensures { slice_get (Self.rows self.now) place ≡ Some result.now };

    /// The row at this spot.
    fn find(&self, spot: Spot<'_>) -> Option<&StoreRow>
        requires sound { Self.sound self.now }
        requires rising { AreRising (Self.rows self.now) }
        ensures { option_map (λ row. row.now) result
            ≡ found_at (row_at spot.entry) (Self.rows self.now) };

    /// How many rows stand before this spot.
    fn place(&self, spot: Spot<'_>) -> u64
        requires sound { Self.sound self.now }
        requires rising { AreRising (Self.rows self.now) }
        ensures { result ≡ count_before (row_at spot.entry) (Self.rows self.now) };

    /// The part with one more row, in place of the one that it ties with. The old part stays.
    fn with<L: Ledger>(
        &self,
        alloc: Global,
        row: SharedRow,
        steps: &mut Steps<L>,
    ) -> Result<Grown<Self>, NoMemory>
        requires sound { Self.sound self.now }
        requires rising { AreRising (Self.rows self.now) }
        ensures rows { IfOk result (λ grown. flat_map Self.rows (parts_of grown.0 grown.1)
            ≡ rows_with (Self.rows self.now) row) }
        ensures grows { IfOk result (λ grown. Grows filled Self.sound self.now grown.0 grown.1) }
        ensures cost { steps.new ≤ steps.old + cost };

    ghost is_sound: { (part : Self) → filled part → Self.sound part };

    ghost has_rows: { (part : Self) → filled part → weight ≤ length (Self.rows part) };
}

impl Twin for SharedRow {
    fn share(&self) -> Result<SharedRow, NoMemory> {
        self.twin()
    }
}

impl Piece for SharedRow {
    ghost rows = { λ row. row ∷ [] };

    ghost sound = { λ row. Unit {0} };

    ghost use Rattle.ingest_tree.specs.Marks.{mark_of};

    ghost marked = { mark_of };

    ghost use Rattle.std.proofs.Common.{rules};

    ghost begins = { λ part sound. Prim.search rules };

    ghost use Rattle.ingest_tree.specs.laws.Filling.{lone-mark};

    ghost has_mark = { lone-mark };

    fn mark(&self) -> Mark {
        self.mark()
    }

    fn count(&self) -> u64 {
        1
    }

    fn first(&self) -> &StoreRow {
        self.row()
    }
}

impl Part for SharedRow {
    ghost use Rattle.std.specs.Prelude.{⊤};

    ghost filled = { λ row. Unit {0} };

    ghost weight = { 1 };

    ghost cost = { 0 };

    ghost is_sound = { λ part filled. tt };

    ghost use Rattle.std.proofs.Common.{rules};

    ghost has_rows = { λ part filled. Prim.search rules };

    fn at(&self, _place: u64) -> &StoreRow {
        self.row()
    }

    fn find(&self, spot: Spot<'_>) -> Option<&StoreRow> {
        let row = self.row();
        match row.spot().order(spot) {
            Ordering::Equal => Some(row),
            Ordering::Less => None,
            Ordering::Greater => None,
        }
    }

    fn place(&self, spot: Spot<'_>) -> u64 {
        match self.row().spot().order(spot) {
            Ordering::Less => 1,
            Ordering::Equal => 0,
            Ordering::Greater => 0,
        }
    }

    fn with<L: Ledger>(
        &self,
        _alloc: Global,
        row: SharedRow,
        _steps: &mut Steps<L>,
    ) -> Result<Grown<SharedRow>, NoMemory> {
        match self.row().spot().order(row.row().spot()) {
            Ordering::Equal => Ok((row, None)),
            Ordering::Less => {
                let twin = self.twin()?;
                Ok((twin, Some(row)))
            }
            Ordering::Greater => {
                let twin = self.twin()?;
                Ok((row, Some(twin)))
            }
        }
    }
}
