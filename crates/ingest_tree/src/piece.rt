//! Rows that stand together: a row, a chunk, a leaf or a branch.
ghost use Rattle.std.specs.Prelude.{◌≡◌, ◌≤◌, ◌<◌, ◌^◌, List, length, slice_get, take, Some, IfOk};
ghost use Rattle.std.specs.List.{flat_map};
ghost use Rattle.ingest_tree.specs.declared.store_row.StoreRow.{StoreRow as a_row};
ghost use Rattle.ingest_tree.specs.Parts.{IsOver};
ghost use Rattle.ingest_tree.specs.Marks.{mark_of, first_mark};
ghost use Rattle.ingest_tree.specs.declared.mark.Mark.{Mark as a_mark};

use crate::mark::Mark;
use crate::store_row::StoreRow;
use hse_io::NoMemory;

/// Rows in order that stand together.
pub(crate) trait Piece: Drop + Sized {
    /// The rows, however they are kept.
    ghost rows: { Self → List a_row };

    /// Whether there are rows, and what is kept of them is as it should be.
    ghost sound: { Self → Type 0 };

    /// The mark of the first row.
    ghost marked: { Self → a_mark };

    /// The mark of the first row.
    fn mark(&self) -> Mark
        ensures { result ≡ marked self.now };

    /// How many rows there are.
    fn count(&self) -> u64
        ensures { result ≡ length (rows self.now) };

    /// The first row.
    fn first(&self) -> &StoreRow
        requires { sound self.now }
        ensures { slice_get (rows self.now) 0 ≡ Some result.now };

    ghost begins: { (piece : Self) → sound piece → 0 < length (rows piece) };

    ghost has_mark: { (piece : Self) → sound piece → (row : a_row)
        → slice_get (rows piece) 0 ≡ Some row → marked piece ≡ mark_of row };
}

/// The mark of the first of these pieces.
pub(crate) fn mark_over<P: Piece>(pieces: &[P]) -> Mark
    ensures { result ≡ first_mark P.marked pieces.now }
{
    match pieces.first() {
        Some(piece) => piece.mark(),
        None => Mark::none(),
    }
}

/// How many rows these pieces have.
pub(crate) fn counted<P: Piece>(pieces: &[P]) -> Result<u64, NoMemory>
    ensures { IfOk result (λ count. count ≡ length (flat_map P.rows pieces.now)) }
{
    let mut count: u64 = 0;
    for piece in pieces {
        match count.checked_add(piece.count()) {
            Some(more) => count = more,
            None => return Err(NoMemory),
        }
    }
    Ok(count)
}

/// How many rows stand in the first pieces.
pub(crate) fn counted_before<P: Piece>(pieces: &[P], at: usize) -> u64
    requires within { at ≤ length pieces.now }
    requires fits { length (flat_map P.rows pieces.now) < 2 ^ 64 }
    ensures { result ≡ length (flat_map P.rows (take at pieces.now)) }
{
    let mut count: u64 = 0;
    for i in 0..at {
        count += pieces[i].count();
    }
    count
}

/// The piece that a place is in, and how many rows stand before it.
pub(crate) fn piece_over<P: Piece>(pieces: &[P], place: u64) -> (usize, u64)
    requires { place < length (flat_map P.rows pieces.now) }
    ensures { IsOver P.rows pieces.now place result.0 result.1 }
{
    let mut before: u64 = 0;
    for at in 0..pieces.len() {
        let count = pieces[at].count();
        if place - before < count {
            return (at, before);
        }
        before += count;
    }
    unreachable!()
}
