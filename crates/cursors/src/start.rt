//! Where a merge begins for a position.
ghost use Rattle.std.specs.Prelude.{List, ℕ};
ghost use Rattle.std.specs.Option.{option_map};
ghost use Rattle.hse_rows.specs.script.Cursor.{forward, backward};
ghost use Rattle.merge.specs.Places.{direction_of};
ghost use Rattle.cursors.specs.Marks.{position_by};
ghost use Rattle.cursors.specs.Starts.{IsBehindAll, StartsSame};

use crate::kind::Asked;
use crate::mark::Stand;

/// Going up: at the filter, where the position is before it.
fn start_up<'a>(stand: Stand, key: &'a [u8], filter: &'a [u8]) -> (Stand, &'a [u8])
    ensures { StartsSame forward filter.now
        (position_by result.0 result.1.now) (position_by stand key.now) }
{
    if stand == Stand::Front {
        return (Stand::At, filter);
    }
    if key.cmp(filter).is_lt() {
        return (Stand::At, filter);
    }
    (stand, key)
}

/// Going down: behind the bytes that are behind all keys with the filter, where the position is.
fn start_down<'a>(stand: Stand, key: &'a [u8], end: Option<&'a [u8]>) -> (Stand, &'a [u8])
    ensures { (prefix : List ℕ) → IsBehindAll prefix (option_map (λ end. end.now) end.entry)
        → StartsSame backward prefix (position_by result.0 result.1.now) (position_by stand key.now) }
{
    let Some(end) = end else {
        return (stand, key);
    };
    if stand == Stand::Front {
        return (Stand::Past, end);
    }
    if key.cmp(end).is_lt() {
        return (stand, key);
    }
    (Stand::Past, end)
}

/// A position from which the same keys with the filter are left, and no nearer one is known.
pub(crate) fn start<'a>(stand: Stand, key: &'a [u8], asked: Asked<'a>) -> (Stand, &'a [u8])
    requires { IsBehindAll asked.filter.now (option_map (λ end. end.now) asked.end) }
    ensures { StartsSame (direction_of asked.entry.reverse) asked.entry.filter.now
        (position_by result.0 result.1.now) (position_by stand key.now) }
{
    if asked.reverse {
        return start_down(stand, key, asked.end);
    }
    start_up(stand, key, asked.filter)
}
