//! A step of a merge.
ghost use Rattle.std.specs.Prelude.{◌≡◌, ◌<◌, ◌⊎◌, ℕ, List, length as number_of, map, Some, None, IfSome};
ghost use Rattle.std.specs.Option.{option_map};
ghost use Rattle.std.specs.List.{AllByRecursion};
ghost use Rattle.hse_rows.specs.rows.RowSets.{AreRows, row_of, row_by};
ghost use Rattle.hse_rows.specs.script.Cursor.{Position};
ghost use Rattle.row_laws.specs.Next.{OwnFalls};
ghost use Rattle.merge.specs.Places.{direction_of, all_passed, all_left, sooner, soonest, IsHead};
ghost use Rattle.merge.specs.Steps.{GoesOn, AreAt, Given};

use crate::covers::{are_known, cover, is_lasting};
use crate::heads::{head, index_of, is_sooner, key_of, place_past};
use hse_rows::{RowRef, RowSet};

/// A source and its next row.
type Head<'a> = (usize, RowRef<'a>);

/// The sooner of a row and the next row of a source.
fn sooner_of<'a>(
    best: Option<Head<'a>>,
    at: usize,
    row: Option<RowRef<'a>>,
    reverse: bool,
) -> Option<Head<'a>>
    ensures row { row_by (option_map (λ h. h.1) result)
        ≡ sooner (direction_of reverse) (row_by (option_map (λ h. h.1) best.entry)) (row_by row.entry) }
    ensures from { IfSome result (λ h. (best.entry ≡ Some h) ⊎ ((h.0 ≡ at) × (row.entry ≡ Some h.1))) }
{
    match row {
        None => best,
        Some(next) => {
            match best {
                None => Some((at, next)),
                Some((from, other)) => {
                    if is_sooner(next, Some(other), reverse) {
                        return Some((at, next));
                    }
                    Some((from, other))
                }
            }
        }
    }
}

/// The soonest of the next rows of the sources, of the nearest source that has it.
fn soonest_of<'a, R: RowSet>(sources: &'a [R], places: &[u64], reverse: bool) -> Option<Head<'a>>
    requires { number_of sources.now ≡ number_of places.now }
    ensures row { row_by (option_map (λ h. h.1) result)
        ≡ soonest (direction_of reverse) None (map R.rows sources.now) places.now }
    ensures at { IfSome result (λ h.
        IsHead (direction_of reverse) (map R.rows sources.now) places.now h.0 (row_of h.1)) }
{
    let mut best: Option<Head<'a>> = None;
    for at in 0..sources.len() {
        best = sooner_of(best, at, head(&sources[at], places[at], reverse), reverse);
    }
    best
}

/// Each place past a key, where the next row is of that key.
fn pass<R: RowSet>(sources: &[R], places: &mut [u64], key: &[u8], reverse: bool)
    requires { number_of sources.now ≡ number_of places.old }
    ensures { places.new
        ≡ all_passed (direction_of reverse) key.now (map R.rows sources.now) places.old }
{
    for at in 0..sources.len() {
        places[at] = place_past(&sources[at], places[at], key, reverse);
    }
}

/// The next merged row, as its source and its place there. It takes no memory.
pub(crate) fn step<R: RowSet>(
    sources: &[R],
    places: &mut [u64],
    reverse: bool,
) -> Option<(u64, u64)>
    requires same { number_of sources.now ≡ number_of places.old }
    requires falls { (key : List ℕ) → OwnFalls key (map R.rows sources.now) }
    requires stands { AreAt (direction_of reverse) (map R.rows sources.now) places.old }
    ensures stands { AreAt (direction_of reverse) (map R.rows sources.now) places.new }
    ensures given { (position : Position)
        → GoesOn (direction_of reverse) position (map R.rows sources.now) places.old
        → Given (direction_of reverse) position (map R.rows sources.now) result places.new }
    ensures fewer { IfSome result (λ _.
        all_left (direction_of reverse) (map R.rows sources.now) places.new
        < all_left (direction_of reverse) (map R.rows sources.now) places.old) }
{
    are_known(sources);
    while let Some((source, row)) = soonest_of(sources, places, reverse) {
        let key = key_of(row);
        let at = index_of(places[source], reverse);
        pass(sources, places, key, reverse);
        if is_lasting(row, cover(sources, key)) {
            return Some((source as u64, at));
        }
    }
    None
}
