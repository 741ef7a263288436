//! Laws of the manifest. These functions do nothing; their contracts are the laws.
ghost use Rattle.std.specs.Prelude.{◌≡◌, ◌≤◌, ℕ, List, [], ◌∷◌, ◌++◌, length, map, Option, Some, None, Ok};
ghost use Rattle.device_layout.specs.declared.layout.Layout.{Layout as a_layout};
ghost use Rattle.device_layout.specs.Layouts.{IsGood, size_of_device};
ghost use Rattle.device_layout.specs.Layouts.{half_of};
ghost use Rattle.gate_log.specs.Gates.{Gated, IsClosed};
ghost use Rattle.gate_log.specs.Places.{region_of, tail_of};
ghost use Rattle.hse_fields.specs.laws.Fields.{IsBytes};
ghost use Rattle.hse_rows.specs.machine.ManifestRoom.{creation_bytes, drop_bytes, base_bytes};
ghost use Rattle.hse_rows.specs.machine.TakenRuns.{runs_of};
ghost use Rattle.hse_rows.specs.states.State.{Store};
ghost use Rattle.manifest.specs.Half.{HasReading, Holds, IsMetadata, IsRefused};
ghost use Rattle.manifest.specs.MayCome.{MayCome, SpellsEntry, after};
ghost use Rattle.manifest.specs.Machine.{live_of};
ghost use Rattle.manifest.specs.Metadata.{LiveStore, Metadata, with_taken};
ghost use Rattle.manifest.specs.Reading.{payload_of};
ghost use Rattle.manifest.specs.Text.{Entry, base_text, create_text, drop_text, entry_text};

/// An image has one manifest: it says one thing, in one half with one sequence and up to one place,
/// or is refused in one half at one place, and never both. An image that is as large as its layout
/// says has one.
pub fn manifests_have_one_reading()
    ensures held { (layout : a_layout) (image : List ℕ) (half other sequence next place at : ℕ)
        (m n : Metadata) → Holds layout half sequence place image m
        → Holds layout other next at image n
        → (half ≡ other) × (sequence ≡ next) × (place ≡ at) × (m ≡ n) }
    ensures refused { (layout : a_layout) (image : List ℕ) (half place other at : ℕ)
        → IsRefused layout image half place → IsRefused layout image other at
        → (half ≡ other) × (place ≡ at) }
    ensures apart { (layout : a_layout) (image : List ℕ) (m : Metadata) (half place : ℕ)
        → IsMetadata layout image m → IsRefused layout image half place → ⊥ }
    ensures each { (layout : a_layout) (image : List ℕ) → IsGood layout
        → size_of_device layout ≤ length image → IsBytes image → HasReading layout image }
{}

/// What is spelled of an entry that may come is read as that entry. So its batch may be logged, or
/// rolled to where it is a base.
pub fn entries_are_read()
    ensures { (most : ℕ) (before : Option Metadata) (entry : Entry) (m : Metadata)
        → MayCome most before entry → after before entry ≡ Some m
        → payload_of most before (entry_text entry) ≡ Ok m }
{}

/// What is read of a payload is spelled so, of an entry that may come. So a payload that is no such
/// entry's text is refused.
pub fn read_entries_are_spelled()
    ensures { (most : ℕ) (before : Option Metadata) (payload : List ℕ) (m : Metadata)
        → IsBytes payload → payload_of most before payload ≡ Ok m
        → SpellsEntry most before payload m }
{}

/// Entries are as long as the machine counts them, and a creation's or a drop's number joins the
/// runs as it joins the machine's taken numbers.
pub fn entries_are_as_the_machine_counts()
    ensures creation { (store : LiveStore)
        → length (create_text store) ≡ creation_bytes store.name }
    ensures drop { (number id : ℕ) → length (drop_text number id) ≡ drop_bytes }
    ensures base { (m : Metadata) (taken : List ℕ) (stores : List Store)
        → m.taken ≡ runs_of taken → m.stores ≡ map live_of stores
        → length (base_text m) ≡ base_bytes taken stores [] }
    ensures taken { (taken : List ℕ) (number : ℕ)
        → with_taken (runs_of taken) number ≡ runs_of (taken ++ number ∷ []) }
{}

/// A base alone in half 1, with sequence 1, is in force beside a half 0 with a closed head; until it
/// is there, the manifest is refused at its first head. So the manifest of a new device is made.
pub fn first_bases_are_in_force()
    ensures held { (layout : a_layout) (image base : List ℕ) (m : Metadata) → IsGood layout
        → IsClosed (region_of (half_of layout 0) image)
        → Gated (region_of (half_of layout 1) image) 1 (base ∷ [])
        → payload_of layout.stores None base ≡ Ok m
        → Holds layout 1 1 (tail_of (base ∷ [])) image m }
    ensures shut { (layout : a_layout) (image : List ℕ) → IsGood layout
        → IsClosed (region_of (half_of layout 0) image)
        → IsClosed (region_of (half_of layout 1) image) → IsRefused layout image 0 0 }
    ensures started { (layout : a_layout) (image : List ℕ) → IsGood layout
        → IsClosed (region_of (half_of layout 0) image)
        → Gated (region_of (half_of layout 1) image) 1 [] → IsRefused layout image 0 0 }
{}
