//! Which of several pieces a row belongs to.
ghost use Rattle.std.specs.Prelude.{◌≡◌, ◌<◌, length, slice_get, Some};
ghost use Rattle.std.specs.List.{AllByRecursion, flat_map};
ghost use Rattle.std.specs.Ordering.{is_gt};
ghost use Rattle.ingest_tree.specs.Chunks.{AreChunks, IsSeat, joined, place_of};
ghost use Rattle.ingest_tree.specs.Rows.{AreRising, store_row_cmp, row_at};
ghost use Rattle.ingest_tree.specs.Parts.{IsChild};
ghost use Rattle.ingest_tree.specs.Marks.{front_of};
ghost use Rattle.hse_rows.specs.writes.Change.{change_of};

use crate::chunk::{Chunk, Seat};
use crate::part::Part;
use crate::piece::Piece;
use crate::store_row::Spot;
use std::cmp::Ordering;

/// Whether the first row of a piece stands behind a spot.
fn follows<P: Piece>(piece: &P, spot: Spot<'_>) -> bool
    requires { P.sound piece.now }
    ensures { (row : _) → slice_get (P.rows piece.now) 0 ≡ Some row → result
        ≡ is_gt (store_row_cmp row (row_at spot.entry)) }
{
    match piece.first().spot().order(spot) {
        Ordering::Less => false,
        Ordering::Equal => false,
        Ordering::Greater => true,
    }
}

/// The same by the marks, which tell it unless they are equal.
fn begins_behind<P: Piece>(piece: &P, spot: Spot<'_>, front: u64) -> bool
    requires sound { P.sound piece.now }
    requires front { front ≡ front_of (change_of spot.change) }
    ensures { (row : _) → slice_get (P.rows piece.now) 0 ≡ Some row → result
        ≡ is_gt (store_row_cmp row (row_at spot.entry)) }
{
    match piece.mark().order(spot.id, front) {
        Ordering::Less => false,
        Ordering::Greater => true,
        Ordering::Equal => follows(piece, spot),
    }
}

/// The piece that a row at this spot belongs to.
fn child_at<P: Piece>(pieces: &[P], spot: Spot<'_>, front: u64) -> usize
    requires some { 0 < length pieces.now }
    requires sound { AllByRecursion P.sound pieces.now }
    requires rising { AreRising (flat_map P.rows pieces.now) }
    requires front { front ≡ front_of (change_of spot.change) }
    ensures { IsChild P.rows pieces.now (row_at spot.entry) result }
{
    let mut low = 0;
    let mut high = pieces.len();
    while high - low > 1 {
        let middle = low + (high - low) / 2;
        if begins_behind(&pieces[middle], spot, front) {
            high = middle;
        } else {
            low = middle;
        }
    }
    low
}

/// The seat of the part that a row at this spot belongs to.
pub(crate) fn seat_of<T: Part>(chunks: &[Chunk<T>], spot: Spot<'_>) -> Seat
    requires some { 0 < length (joined chunks.now) }
    requires chunks { AreChunks chunks.now }
    requires sound { AllByRecursion T.sound (joined chunks.now) }
    requires rising { AreRising (flat_map T.rows (joined chunks.now)) }
    ensures seat { IsSeat chunks.now result.chunk result.place }
    ensures child { IsChild T.rows (joined chunks.now) (row_at spot.entry)
        (place_of chunks.now result.chunk result.place) }
{
    let front = spot.front();
    let chunk = child_at(chunks, spot, front);
    let place = child_at(chunks[chunk].parts(), spot, front);
    Seat { chunk, place }
}
