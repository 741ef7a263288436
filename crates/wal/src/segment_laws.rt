//! Laws of segments. These functions do nothing; their contracts are the laws.
ghost use Rattle.std.specs.Prelude.{◌≡◌, ◌≢◌, ◌+◌, ◌++◌, ◌∷◌, [], ℕ, List, Ok};
ghost use Rattle.std.specs.List.{All};
ghost use Rattle.gate_log.specs.Gates.{IsClosed};
ghost use Rattle.gate_log.specs.declared.front.End.{End as an_end};
ghost use Rattle.gate_log.specs.declared.front.End.TheVariants.{Closed};
ghost use Rattle.gate_log.specs.declared.region.Tail.{Tail as a_tail};
ghost use Rattle.hse_fields.specs.LogReading.{payload_of};
ghost use Rattle.hse_fields.specs.LogText.{Entry};
ghost use Rattle.wal.specs.Batches.{IsBeginningRead};
ghost use Rattle.wal.specs.Logged.{entries_of};
ghost use Rattle.wal.specs.Numbering.{Numbers, numbering};
ghost use Rattle.wal.specs.Replaying.{segment_of, IsRefused, IsSegment};
ghost use Rattle.wal.specs.declared.live.StorePrefix.{StorePrefix as a_prefix};
ghost use Rattle.wal.specs.declared.segment.Segment.{Segment as a_segment};
ghost use Rattle.wal.specs.Stores.{OfEachStore, LacksStore, FitsAlike};

/// No segment has two readings: a region holds the commits of one segment, or is refused at one
/// place, or its head is closed, and only one of these is the case.
pub fn one_replay()
    ensures segment { (region : List ℕ) (live : List a_prefix) (most : ℕ) (start : Numbers)
        (one other : a_segment)
        → IsSegment region live most start one → IsSegment region live most start other
        → (entries_of one.commits.items ≡ entries_of other.commits.items)
        × (one.sequence ≡ other.sequence) × (one.next ≡ other.next) × (one.charges ≡ other.charges)
        × (one.tail ≡ other.tail) }
    ensures refused { (region : List ℕ) (live : List a_prefix) (most : ℕ) (start : Numbers)
        (place other : ℕ) → IsRefused region live most start place
        → IsRefused region live most start other → place ≡ other }
    ensures segment_not_refused { (region : List ℕ) (live : List a_prefix) (most : ℕ)
        (start : Numbers) (segment : a_segment) (place : ℕ)
        → IsSegment region live most start segment → IsRefused region live most start place → ⊥ }
    ensures segment_not_closed { (region : List ℕ) (live : List a_prefix) (most : ℕ)
        (start : Numbers) (segment : a_segment)
        → IsSegment region live most start segment → IsClosed region → ⊥ }
    ensures refused_not_closed { (region : List ℕ) (live : List a_prefix) (most : ℕ)
        (start : Numbers) (place : ℕ)
        → IsRefused region live most start place → IsClosed region → ⊥ }
{}

/// A batch behind a segment's batches is read behind their entries; and of the batches of a segment
/// that is read each beginning is read, and gives a beginning of its entries.
pub fn one_batch_more()
    ensures more { (live : List a_prefix) (most : ℕ) (start : Numbers) (payloads : List (List ℕ))
        (tail other : a_tail) (entries : List Entry) (last : Numbers) (payload : List ℕ)
        (more : List Entry) (after : Numbers)
        → segment_of live most start payloads (Closed tail) ≡ Ok (entries, last)
        → payload_of (numbering live) most last payload ≡ Ok (more, after)
        → segment_of live most start (payloads ++ payload ∷ []) (Closed other)
        ≡ Ok (entries ++ more, after) }
    ensures beginning { (live : List a_prefix) (most : ℕ) (start : Numbers)
        (payloads others : List (List ℕ)) (end : an_end) (entries : List Entry) (last : Numbers)
        → segment_of live most start (payloads ++ others) end ≡ Ok (entries, last)
        → IsBeginningRead live most start payloads others entries last }
{}

/// A segment is read the same by two lists of live stores by which the stores that its changes name
/// have the same prefix lengths. So it is with a store taken out, or put in, that none of them
/// names.
pub fn unnamed_stores_change_nothing()
    ensures alike { (live other : List a_prefix) (most : ℕ) (start last : Numbers)
        (payloads : List (List ℕ)) (end : an_end) (entries : List Entry)
        → OfEachStore (FitsAlike live other) entries
        → segment_of live most start payloads end ≡ Ok (entries, last)
        → segment_of other most start payloads end ≡ Ok (entries, last) }
    ensures removed { (before behind : List a_prefix) (store : a_prefix) (most : ℕ)
        (start last : Numbers) (payloads : List (List ℕ)) (end : an_end) (entries : List Entry)
        → LacksStore store.store.0 entries
        → segment_of (before ++ store ∷ behind) most start payloads end ≡ Ok (entries, last)
        → segment_of (before ++ behind) most start payloads end ≡ Ok (entries, last) }
    ensures added { (before behind : List a_prefix) (store : a_prefix) (most : ℕ)
        (start last : Numbers) (payloads : List (List ℕ)) (end : an_end) (entries : List Entry)
        → LacksStore store.store.0 entries
        → segment_of (before ++ behind) most start payloads end ≡ Ok (entries, last)
        → segment_of (before ++ store ∷ behind) most start payloads end ≡ Ok (entries, last) }
{}

/// A segment that is read is read the same with a store taken out of the live ones, whatever its
/// changes name, if that store is not listed again: a dropped store's commits stay readable.
pub fn dropped_stores_change_nothing()
    ensures { (before behind : List a_prefix) (store : a_prefix) (most : ℕ)
        (start last : Numbers) (payloads : List (List ℕ)) (end : an_end) (entries : List Entry)
        → All (λ (p : a_prefix). p.store.0 ≢ store.store.0) behind
        → segment_of (before ++ store ∷ behind) most start payloads end ≡ Ok (entries, last)
        → segment_of (before ++ behind) most start payloads end ≡ Ok (entries, last) }
{}
