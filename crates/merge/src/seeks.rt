//! The places of a position.
ghost use Rattle.std.specs.Prelude.{◌≡◌, [], length as number_of, map, IfOk};
ghost use Rattle.hse_rows.specs.script.Cursor.{forward, backward, front};
ghost use Rattle.row_laws.specs.Next.{position_of};
ghost use Rattle.merge.specs.Places.{direction_of, place_by, places_by};

use crate::heads::place_past;
use hse_io::NoMemory;
use hse_rows::RowSet;
use std::alloc::Global;

/// The place of the first key of a source.
fn place_of_first<R: RowSet>(source: &R) -> u64
    ensures { result ≡ place_by forward front (R.rows source.now) }
{
    source.place(&[])
}

/// The place of the first key of each source.
pub(crate) fn first_places<R: RowSet>(alloc: Global, sources: &[R]) -> Result<Vec<u64>, NoMemory>
    ensures { IfOk result (λ places. places.items ≡ places_by forward front (map R.rows sources.now)) }
{
    let mut places = Vec::with_capacity(alloc, sources.len())?;
    for source in sources {
        places.push(place_of_first(source))?;
    }
    Ok(places)
}

/// The place of an edge in a source, or past it.
fn place_to<R: RowSet>(source: &R, edge: &[u8], past: bool, reverse: bool) -> u64
    ensures { result ≡ place_by (direction_of reverse) (position_of past edge.now) (R.rows source.now) }
{
    source.known();
    let at = source.place(edge);
    if past {
        if reverse {
            return at;
        }
        return place_past(source, at, edge, false);
    }
    if reverse {
        return place_past(source, at, edge, false);
    }
    at
}

/// The place of an edge in each source, or past it.
pub(crate) fn seek<R: RowSet>(
    sources: &[R],
    places: &mut [u64],
    edge: &[u8],
    past: bool,
    reverse: bool,
)
    requires { number_of sources.now ≡ number_of places.old }
    ensures { places.new
        ≡ places_by (direction_of reverse) (position_of past edge.now) (map R.rows sources.now) }
{
    for at in 0..sources.len() {
        places[at] = place_to(&sources[at], edge, past, reverse);
    }
}

/// The place behind all keys of a source.
fn place_of_end<R: RowSet>(source: &R) -> u64
    ensures { result ≡ place_by backward front (R.rows source.now) }
{
    source.len()
}

/// The place behind all keys in each source.
pub(crate) fn seek_end<R: RowSet>(sources: &[R], places: &mut [u64])
    requires { number_of sources.now ≡ number_of places.old }
    ensures { places.new ≡ places_by backward front (map R.rows sources.now) }
{
    for at in 0..sources.len() {
        places[at] = place_of_end(&sources[at]);
    }
}
