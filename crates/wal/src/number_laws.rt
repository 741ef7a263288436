//! Laws of the commits' numbers. These functions do nothing; their contracts are the laws.
ghost use Rattle.std.specs.Prelude.{◌≡◌, ◌≤◌, ◌∷◌, ℕ, List, Ok};
ghost use Rattle.std.specs.List.{All};
ghost use Rattle.std.specs.List.Sorted.{IsStrictlyIncreasing};
ghost use Rattle.gate_log.specs.declared.front.End.{End as an_end};
ghost use Rattle.gate_log.specs.declared.front.End.TheVariants.{Closed};
ghost use Rattle.gate_log.specs.declared.region.Tail.{Tail as a_tail};
ghost use Rattle.hse_fields.specs.LogReading.{payload_of, Follow};
ghost use Rattle.hse_fields.specs.LogText.{Entry};
ghost use Rattle.wal.specs.Numbered.{untaken, IsRun};
ghost use Rattle.wal.specs.Numbering.{Numbers, numbering};
ghost use Rattle.wal.specs.Replaying.{segment_of};
ghost use Rattle.wal.specs.declared.live.StorePrefix.{StorePrefix as a_prefix};
ghost use Rattle.wal.specs.Taken.{with_taken, FollowsNumbers, MayFollow, StartsAlike};

/// Where no number is taken, the commits that are replayed are numbered one after another, and
/// their charges fit into the room.
pub fn replayed_is_a_run()
    ensures payload { (live : List a_prefix) (most next room : ℕ) (bytes : List ℕ)
        (entries : List Entry) (last : Numbers)
        → payload_of (numbering live) most (untaken next room) bytes ≡ Ok (entries, last)
        → IsRun next room entries last }
    ensures segment { (live : List a_prefix) (most next room : ℕ) (payloads : List (List ℕ))
        (end : an_end) (entries : List Entry) (last : Numbers)
        → segment_of live most (untaken next room) payloads end ≡ Ok (entries, last)
        → IsRun next room entries last }
{}

/// The commits that follow one another take of the room what they are charged, and their numbers
/// rise strictly, from the least number that may come, past the numbers that are taken. None is
/// skipped that is not taken.
pub fn entries_follow_the_numbers()
    ensures { (live : List a_prefix) (state last : Numbers) (entries : List Entry)
        → IsStrictlyIncreasing state.taken → Follow (numbering live) state entries last
        → FollowsNumbers state entries last }
{}

/// Commits whose numbers rise strictly from the least number that may come, and skip none that is
/// not taken, of at most 2^62, may come one after another where the room is enough for their
/// charges; so their text is read as these commits. It is the converse of what
/// `entries_follow_the_numbers` says.
pub fn numbers_without_a_gap_follow()
    ensures { (live : List a_prefix) (state : Numbers) (entries : List Entry)
        → IsStrictlyIncreasing state.taken → MayFollow state entries
        → (last : Numbers) × Follow (numbering live) state entries last
        × FollowsNumbers state entries last }
{}

/// The same commits follow one another where more numbers are taken, none of them below the number
/// that may come next behind the commits; and a segment is read as the same commits then.
pub fn later_taken_numbers_change_nothing()
    ensures follow { (live : List a_prefix) (state last : Numbers) (entries : List Entry)
        (more : List ℕ) → Follow (numbering live) state entries last
        → All (λ (t : ℕ). last.next ≤ t) more
        → Follow (numbering live) (with_taken state more) entries (with_taken last more) }
    ensures segment { (live : List a_prefix) (most : ℕ) (start last : Numbers)
        (payloads : List (List ℕ)) (tail : a_tail) (entries : List Entry) (more : List ℕ)
        → segment_of live most start payloads (Closed tail) ≡ Ok (entries, last)
        → All (λ (t : ℕ). last.next ≤ t) more
        → segment_of live most (with_taken start more) payloads (Closed tail)
        ≡ Ok (entries, with_taken last more) }
{}

/// A segment with a batch is read the same from two starts from which the same number comes first,
/// with the same taken numbers behind it and the same room. So it is where the horizon rose, and the
/// taken numbers up to it are no longer known.
pub fn starts_alike_read_the_same()
    ensures { (live : List a_prefix) (most : ℕ) (one other : Numbers) (payload : List ℕ)
        (payloads : List (List ℕ)) (end : an_end) → StartsAlike one other
        → segment_of live most one (payload ∷ payloads) end
        ≡ segment_of live most other (payload ∷ payloads) end }
{}
