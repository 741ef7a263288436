//! Laws of the commits' text. These functions do nothing; their contracts are the laws.
ghost use Rattle.std.specs.Prelude.{◌≡◌, ◌+◌, ◌-◌, ◌^◌, ◌<◌, ◌≤◌, ℕ, List, length, Ok};
ghost use Rattle.std.specs.List.{All};
ghost use Rattle.hse_fields.specs.LogForm.{ArePayload};
ghost use Rattle.hse_fields.specs.LogLimits as log_limits;
ghost use Rattle.hse_fields.specs.LogReading.{payload_of, Follow, PrefixesFit};
ghost use Rattle.hse_fields.specs.LogText.{Entry, entry_text, payload_text};
ghost use Rattle.hse_rows.specs.writes.Charge.{charge_of};
ghost use Rattle.hse_rows.specs.writes.Lengths.{longest_key, longest_prefix};
ghost use Rattle.wal.specs.Charges.{charges, entries_charge, HasEntries};
ghost use Rattle.wal.specs.Live.{prefix_fits};
ghost use Rattle.wal.specs.Logged.{entry_of, entries_of};
ghost use Rattle.wal.specs.Numbered.{untaken, AreNumbered};
ghost use Rattle.wal.specs.Numbering.{Numbers, numbering};
ghost use Rattle.wal.specs.Writable.{IsWritableCommit};
ghost use Rattle.wal.specs.declared.commit.Commit.{Commit as a_commit};
ghost use Rattle.wal.specs.declared.live.StorePrefix.{StorePrefix as a_prefix};

/// Keys and prefixes have the same limits in the fields of formats as in rows.
pub fn limits_are_the_same()
    ensures keys { log_limits.longest_key ≡ longest_key }
    ensures prefixes { log_limits.longest_prefix ≡ longest_prefix }
{}

/// What a commit takes of a segment's room is the length of its entry, and 32.
pub fn charge_is_length()
    ensures { (commit : a_commit)
        → charge_of commit.writes ≡ length (entry_text (entry_of commit)) + 32 }
{}

/// What a batch takes of a segment's room, by its bytes, is what its commits take.
pub fn batches_take_their_charges()
    ensures { (entries : List Entry) → 1 ≤ length entries → length entries < 2 ^ 32
        → HasEntries (payload_text entries)
        × (entries_charge (payload_text entries) ≡ charges entries) }
{}

/// Commits whose writes are in the order of a normal form, and whose numbers, stores, names, values
/// and counts are within their limits, are a payload: their text is read as these commits.
pub fn commits_are_a_payload()
    ensures { (most : ℕ) (commits : List a_commit) → 1 ≤ length commits → length commits < 2 ^ 32
        → All (IsWritableCommit most) commits → ArePayload most (entries_of commits) }
{}

/// What is spelled of commits that may come one after another is replayed; and such are, where no
/// number is taken, those that are numbered one after another from the next number on, of at most
/// 2^62, for which the room is enough.
pub fn encoded_is_replayed()
    ensures replayed { (live : List a_prefix) (most : ℕ) (state last : Numbers)
        (entries : List Entry) → most < 2 ^ 32 → ArePayload most entries
        → Follow (numbering live) state entries last → PrefixesFit (prefix_fits live) entries
        → payload_of (numbering live) most state (payload_text entries) ≡ Ok (entries, last) }
    ensures follow { (live : List a_prefix) (next room : ℕ) (entries : List Entry)
        → AreNumbered next entries → next + length entries ≤ 2 ^ 62 + 1 → charges entries ≤ room
        → Follow (numbering live) (untaken next room) entries
        (untaken (next + length entries) (room - charges entries)) }
{}
