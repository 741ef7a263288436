//! From a position to the next pair.
ghost use Rattle.std.specs.Prelude.{◌≡◌};
ghost use Rattle.std.specs.Option.{option_map};
ghost use Rattle.hse_rows.specs.rows.Meaning.{contents_of};
ghost use Rattle.hse_rows.specs.script.Cursor.{CursorState, front};
ghost use Rattle.row_laws.specs.Sources.{all_rows};
ghost use Rattle.merge.specs.Places.{direction_of};
ghost use Rattle.cursors.specs.Marks.{position_by};
ghost use Rattle.cursors.specs.Pairs.{IsBrought, IsNextPair};
ghost use Rattle.cursors.specs.Starts.{IsBehindAll};

use crate::kind::Asked;
use crate::mark::{Mark, Stand};
use crate::next_pair::next_pair;
use crate::start::start;
use hse_rows::RowSet;
use merge::Merged;

/// Brings a merge before all keys in a direction.
fn bring_to_front<R: RowSet + Drop>(merged: &mut Merged<R>, reverse: bool)
    ensures { IsBrought (direction_of reverse) front merged.old.sources merged.new }
{
    if reverse {
        merged.seek_end();
        return;
    }
    merged.seek(&[], false, false);
}

/// Brings a merge to a position.
fn bring<R: RowSet + Drop>(merged: &mut Merged<R>, stand: Stand, key: &[u8], reverse: bool)
    ensures { IsBrought (direction_of reverse) (position_by stand key.now)
        merged.old.sources merged.new }
{
    match stand {
        Stand::Front => bring_to_front(merged, reverse),
        Stand::At => merged.seek(key, false, reverse),
        Stand::Past => merged.seek(key, true, reverse),
    }
}

/// The place of the first pair from a position on, and none where none is left. It passes no key that
/// stands outside the filter before the first that begins with it. It takes no memory.
pub(crate) fn look<R: RowSet + Drop>(
    merged: &mut Merged<R>,
    position: &Mark,
    asked: Asked<'_>,
) -> Option<(u64, u64)>
    requires { IsBehindAll asked.filter.now (option_map (λ end. end.now) asked.end) }
    ensures sources { merged.new.sources ≡ merged.old.sources }
    ensures pair { (cursor : CursorState) → cursor.direction ≡ direction_of asked.entry.reverse
        → cursor.prefix ≡ asked.entry.filter.now
        → cursor.last ≡ option_map (λ last. last.now) asked.entry.last
        → cursor.position ≡ position.now → cursor.contents ≡ contents_of (all_rows merged.old.sources)
        → IsNextPair cursor merged.new result }
{
    let (stand, key) = position.parts();
    let (stand, key) = start(stand, key, asked);
    bring(merged, stand, key, asked.reverse);
    next_pair(merged, asked)
}
