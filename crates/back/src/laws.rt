//! Laws of what is loaded after a turn. These functions do nothing; their contracts are the laws.
ghost use Rattle.std.specs.Prelude.{◌≡◌, ◌+◌, ◌^◌, ◌<◌, ◌≤◌, ℕ, List, length, false, true, Some, Ok, Err};
ghost use Rattle.gate_log.specs.Places.{need_of};
ghost use Rattle.hse_fields.specs.LogText.{Entry as a_commit};
ghost use Rattle.hse_rows.specs.machine.Core.{life};
ghost use Rattle.hse_rows.specs.machine.Limits.{IsWithinLimits};
ghost use Rattle.hse_rows.specs.machine.ManifestRoom.{gained, goes_into_no_half, half_room, ManifestState};
ghost use Rattle.hse_rows.specs.machine.TakenRuns.{numbers_of, runs_of};
ghost use Rattle.hse_rows.specs.states.History.{commits, creates, drops, folded, happened};
ghost use Rattle.hse_rows.specs.states.State.{IsState};
ghost use Rattle.manifest.specs.MayCome.{IsDescribed, MayBeBase, MayCome};
ghost use Rattle.manifest.specs.Metadata.{is_live, LiveStore, Metadata};
ghost use Rattle.manifest.specs.Text.{Entry as an_entry, create, drop, base_text, entry_text};
ghost use Rattle.recovery.specs.Image.{IsLoaded, Loaded};
ghost use Rattle.recovery.specs.Stored.{state_of};
ghost use Rattle.manifest.specs.declared.manifest.Manifest.{Manifest as a_manifest};
ghost use Rattle.wal.specs.Logged.{entry_of};
ghost use Rattle.wal.specs.declared.commit.Commit.{Commit as a_wal_commit};
ghost use Rattle.back.specs.Bases.{AreCounted, AreKnown};
ghost use Rattle.back.specs.Events.{event_of, events_of};
ghost use Rattle.recovery.specs.Machine.{manifest_of, stored_of};
ghost use Rattle.back.specs.Plans.{HasRoomFor, IsCounted, IsPlan};
ghost use Rattle.back.specs.declared.plan.EntryPlan.{EntryPlan as a_plan};
ghost use Rattle.back.specs.declared.plan.PlanFault.TheVariants.{ManifestFull};
ghost use Rattle.back.specs.Steps.{last_number, metadata_with, with_commits, with_entry, MayCommitAny, MayEnter};

/// What is stored after a batch of commits is the state after them, as events behind what was
/// stored before; and so after a creation and a drop, also behind commits. A commit that the log
/// spells is the event of its writes.
pub fn turns_store_the_next_states()
    ensures commits { (image : List ℕ) (loaded : Loaded) (commits : List a_commit)
        → IsLoaded image loaded → state_of (with_commits loaded commits)
        ≡ folded (state_of loaded) (events_of commits) }
    ensures creation { (image : List ℕ) (loaded : Loaded) (commits : List a_commit)
        (store : LiveStore) → IsLoaded image loaded → MayCommitAny loaded commits
        → MayEnter (with_commits loaded commits) (create store)
        → state_of (with_entry (with_commits loaded commits) (create store))
        ≡ happened (state_of (with_commits loaded commits))
        (creates store.name store.mode store.prefix_length) }
    ensures drop { (image : List ℕ) (loaded : Loaded) (commits : List a_commit)
        (number id : ℕ) → IsLoaded image loaded → MayCommitAny loaded commits
        → MayEnter (with_commits loaded commits) (drop number id)
        → state_of (with_entry (with_commits loaded commits) (drop number id))
        ≡ happened (state_of (with_commits loaded commits)) (drops id) }
    ensures event { (commit : a_wal_commit)
        → event_of (entry_of commit) ≡ commits commit.writes }
{}

/// The last number after a turn, by its commits and its entry.
pub fn turns_count_their_events()
    ensures commits { (image : List ℕ) (loaded : Loaded) (commits : List a_commit)
        → IsLoaded image loaded
        → last_number (with_commits loaded commits) ≡ last_number loaded + length commits }
    ensures entry { (image : List ℕ) (loaded : Loaded) (commits : List a_commit)
        (entry : an_entry) → IsLoaded image loaded → MayCommitAny loaded commits
        → MayEnter (with_commits loaded commits) entry
        → last_number (with_entry (with_commits loaded commits) entry)
        ≡ last_number (with_commits loaded commits) + 1 }
{}

/// After a creation and a drop the manifest has what the machine counts: its sequence, its bytes
/// and its taken numbers.
pub fn manifests_gain_as_the_machine_counts()
    ensures { (loaded : Loaded) (entry : an_entry)
        → manifest_of (with_entry loaded entry) ≡ gained loaded.layout.manifest
        (manifest_of loaded) (need_of (entry_text entry))
        (need_of (base_text (metadata_with loaded.metadata entry)))
        (numbers_of (metadata_with loaded.metadata entry).taken) }
{}

/// A planned entry has room. There is a plan exactly where the machine finds room for the entry, or
/// for all of its state in the other half; else need and room are the machine's.
pub fn plans_are_as_the_machine_counts()
    ensures room { (manifest : a_manifest) (entry after : List ℕ) (plan : a_plan)
        → IsPlan manifest entry after (Ok plan) → HasRoomFor manifest plan }
    ensures plan { (manifest : a_manifest) (state : ManifestState) (entry after : List ℕ)
        (plan : a_plan) → IsCounted manifest state → IsPlan manifest entry after (Ok plan)
        → goes_into_no_half manifest.layout.manifest state (need_of entry) (need_of after)
        ≡ false }
    ensures full { (manifest : a_manifest) (state : ManifestState) (entry after : List ℕ)
        (need room : ℕ) → IsCounted manifest state
        → IsPlan manifest entry after (Err (ManifestFull need room))
        → (goes_into_no_half manifest.layout.manifest state (need_of entry) (need_of after)
        ≡ true) × (need ≡ need_of after) × (room ≡ half_room manifest.layout.manifest) }
{}

/// What is loaded of a device may be a base. Behind commits that may come, a creation of the next
/// number may enter where one more store may live and its name is free, and a drop of it where the
/// store lives, since what they leave may be a base too. Entry and base have fewer than 2^32 bytes. The live stores have known ids, and prefixes of
/// at most 32 bytes. The taken numbers stand in as few runs as say them.
pub fn loaded_metadata_may_be_bases()
    ensures base { (image : List ℕ) (loaded : Loaded) → IsLoaded image loaded
        → AreCounted loaded.metadata.taken → MayBeBase loaded.layout.stores loaded.metadata }
    ensures creation { (image : List ℕ) (loaded : Loaded) (commits : List a_commit)
        (store : LiveStore) → IsLoaded image loaded → AreCounted loaded.metadata.taken
        → MayCommitAny loaded commits
        → store.id ≡ last_number (with_commits loaded commits) + 1 → store.id ≤ 2 ^ 62
        → length loaded.metadata.stores < loaded.layout.stores
        → IsDescribed loaded.metadata.stores store
        → MayEnter (with_commits loaded commits) (create store) }
    ensures drop { (image : List ℕ) (loaded : Loaded) (commits : List a_commit)
        (number id : ℕ) → IsLoaded image loaded → AreCounted loaded.metadata.taken
        → MayCommitAny loaded commits
        → number ≡ last_number (with_commits loaded commits) + 1 → number ≤ 2 ^ 62
        → is_live id loaded.metadata.stores ≡ true
        → MayEnter (with_commits loaded commits) (drop number id) }
    ensures short_base { (image : List ℕ) (loaded : Loaded) (entry : an_entry)
        → IsLoaded image loaded → MayCome loaded.layout.stores (Some loaded.metadata) entry
        → length (base_text (metadata_with loaded.metadata entry)) < 2 ^ 32 }
    ensures short { (most : ℕ) (before : Metadata) (entry : an_entry)
        → MayCome most (Some before) entry → length (entry_text entry) < 2 ^ 32 }
    ensures stores { (image : List ℕ) (loaded : Loaded) → IsLoaded image loaded
        → AreKnown (last_number loaded) loaded.metadata.stores }
    ensures runs { (image : List ℕ) (loaded : Loaded) → IsLoaded image loaded
        → AreCounted loaded.metadata.taken
        → loaded.metadata.taken ≡ runs_of (numbers_of loaded.metadata.taken) }
{}

/// The life that begins at what is loaded of a device is within the limits, and its base is a state.
pub fn loaded_lives_keep_limits()
    ensures limits { (image : List ℕ) (loaded : Loaded) → IsLoaded image loaded
        → IsWithinLimits (life (stored_of loaded)) }
    ensures base { (image : List ℕ) (loaded : Loaded) → IsLoaded image loaded
        → IsState (stored_of loaded).base }
{}
