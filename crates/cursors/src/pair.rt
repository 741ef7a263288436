//! The pair at a place.
ghost use Rattle.std.specs.Prelude.{◌≡◌, ◌≤◌, length};
ghost use Rattle.hse_rows.specs.script.Cursor.{Pair};
ghost use Rattle.hse_rows.specs.writes.Lengths.{longest_key};
ghost use Rattle.cursors.specs.Cursors.{IsPairAt};

use hse_rows::{ChangeRef, RowSet};
use merge::Merged;

/// The pair that the row at a place puts. It takes no memory.
pub(crate) fn pair_in<R: RowSet + Drop>(merged: &Merged<R>, source: u64, at: u64) -> (&[u8], &[u8])
    requires { (pair : Pair) × IsPairAt merged.now.sources source at pair }
    ensures pair { (pair : Pair) → IsPairAt merged.now.sources source at pair
        → (result.0.now, result.1.now) ≡ pair }
    ensures within { length result.0.now ≤ longest_key }
{
    match merged.row(source, at).change {
        ChangeRef::Put(key, value) => (key, value),
        ChangeRef::Del(key) => (key, &[]),
        ChangeRef::PDel(prefix) => (prefix, &[]),
    }
}
