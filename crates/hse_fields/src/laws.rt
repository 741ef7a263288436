//! Laws of the fields, and of the log's text that is made of them. These functions do nothing;
//! their contracts are the laws.
ghost use Rattle.std.specs.Prelude.{◌≡◌, ◌^◌, ◌+◌, ◌<◌, ◌≤◌, ◌++◌, ℕ, List, length, Ok, Err, slice_index};
ghost use Rattle.byteorder.specs.Endian.{big_bytes};
ghost use Rattle.hse_fields.specs.Fields.{bytes_of, number_of};
ghost use Rattle.hse_fields.specs.LogText.{Entry, payload_text};
ghost use Rattle.hse_fields.specs.LogForm.{ArePayload};
ghost use Rattle.hse_fields.specs.LogReading.{any, payload_of, Follow, PrefixesFit, Rule};

/// What was put is taken again, whatever stands behind it.
pub fn put_is_taken()
    ensures numbers { (n number : ℕ) (rest : List ℕ) → number < 256 ^ n
        → number_of n (big_bytes n number ++ rest) ≡ Ok (number, rest) }
    ensures bytes { (bytes rest : List ℕ)
        → bytes_of (length bytes) (bytes ++ rest) ≡ Ok (bytes, rest) }
{}

/// The log's text has one reading: a payload's bytes that are read are the text of what was read,
/// and what is spelled so is read. So a payload that is refused is no text of the log, and the
/// refused field lies in its batch, from the batch's length on.
pub fn log_text_is_read()
    ensures read { (most : ℕ) (bytes : List ℕ) (entries : List Entry)
        → ((i : ℕ) → slice_index bytes i < 256) → payload_of any most tt bytes ≡ Ok (entries, tt)
        → (bytes ≡ payload_text entries) × ArePayload most entries }
    ensures spelled { (most : ℕ) (entries : List Entry) → most < 2 ^ 32 → ArePayload most entries
        → payload_of any most tt (payload_text entries) ≡ Ok (entries, tt) }
    ensures refused { (most left : ℕ) (bytes : List ℕ) (entries : List Entry) → most < 2 ^ 32
        → payload_of any most tt bytes ≡ Err left → ArePayload most entries
        → bytes ≡ payload_text entries → ⊥ }
    ensures within { (most left : ℕ) (bytes : List ℕ) → payload_of any most tt bytes ≡ Err left
        → left ≤ 4 + length bytes }
{}

/// The same where a rule asks more of the entries: what is read are entries that may come one after
/// another and whose prefix deletes have lengths that fit, and what is spelled so of such entries
/// is read.
pub fn log_text_is_read_by_rule<S>()
    ensures read { (rule : Rule S) (most : ℕ) (state last : S) (bytes : List ℕ)
        (entries : List Entry) → ((i : ℕ) → slice_index bytes i < 256)
        → payload_of rule most state bytes ≡ Ok (entries, last)
        → (bytes ≡ payload_text entries) × ArePayload most entries
        × Follow rule state entries last × PrefixesFit rule.prefix_fits entries }
    ensures spelled { (rule : Rule S) (most : ℕ) (state last : S) (entries : List Entry)
        → most < 2 ^ 32 → ArePayload most entries → Follow rule state entries last
        → PrefixesFit rule.prefix_fits entries
        → payload_of rule most state (payload_text entries) ≡ Ok (entries, last) }
    ensures within { (rule : Rule S) (most left : ℕ) (state : S) (bytes : List ℕ)
        → payload_of rule most state bytes ≡ Err left → left ≤ 4 + length bytes }
{}
