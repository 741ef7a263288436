//! The next pair of a merge that a cursor asks for.
ghost use Rattle.std.specs.Prelude.{◌≡◌};
ghost use Rattle.std.specs.Option.{option_map};
ghost use Rattle.hse_rows.specs.script.Cursor.{CursorState};
ghost use Rattle.merge.specs.Places.{direction_of};
ghost use Rattle.cursors.specs.Pairs.{IsAhead, IsNextPair};

use crate::kind::{Asked, Kind, kind_of};
use hse_rows::RowSet;
use merge::Merged;
use row_laws::merged_rows_are_entries;

/// The place of the next pair, and none where none is left. It takes no memory.
pub(crate) fn next_pair<R: RowSet + Drop>(
    merged: &mut Merged<R>,
    asked: Asked<'_>,
) -> Option<(u64, u64)>
    ensures sources { merged.new.sources ≡ merged.old.sources }
    ensures pair { (cursor : CursorState) → cursor.direction ≡ direction_of asked.entry.reverse
        → cursor.prefix ≡ asked.entry.filter.now → cursor.last ≡ option_map (λ last. last.now) asked.entry.last
        → IsAhead cursor merged.old → IsNextPair cursor merged.new result }
{
    merged_rows_are_entries();
    while let Some((source, at)) = merged.advance() {
        match kind_of(merged.row(source, at), asked) {
            Kind::Pair => return Some((source, at)),
            Kind::Gap => {}
            Kind::End => return None,
        }
    }
    None
}
