//! Writes creations and drops.
ghost use Rattle.std.specs.Prelude.{◌≡◌, ◌≤◌, ℕ, List, OnOk};
ghost use Rattle.hse_io.specs.Faults.{HasCause};
ghost use Rattle.media_disk.specs.Calls.{CallsMade};
ghost use Rattle.media_disk.specs.Leaves.{LeavesOnly};
ghost use Rattle.hse_fields.specs.LogText.{Entry as a_commit};
ghost use Rattle.gate_log.specs.Places.{need_of};
ghost use Rattle.manifest.specs.Metadata.{LiveStore};
ghost use Rattle.manifest.specs.Text.{Entry as an_entry, create, drop, base_text, entry_text};
ghost use Rattle.manifest.specs.Writing.{room_in, IsLogged, IsRolled, IsRollFull};
ghost use Rattle.recovery.specs.Image.{Loaded};
ghost use Rattle.back.specs.Home.{AtRest};
ghost use Rattle.back.specs.Leaving.{OldOrCommitted, OldOrEntered, OldOrNew};
ghost use Rattle.back.specs.Plans.{HasRoomFor, IsBatchOf, IsPlacedBy, IsPlanOf, LogHasRoomFor, MayTurn};
ghost use Rattle.back.specs.Steps.{logged, metadata_with, rolled, with_commits, with_entry, MayCommitAny, MayEnter};

use crate::{Back, EntryPlan};
use gate_log::Batch;
use manifest::ManifestFault;
use media_disk::{Disk, Failed};

impl<D: Disk> Back<D> {
    /// Writes the commits, where there are some.
    fn commit(&mut self, batch: Option<&Batch>) -> Result<(), Failed>
        requires { LogHasRoomFor self.old.log batch }
        ensures calls { CallsMade D.Device self.old.disk self.new.disk }
        ensures cause { HasCause (D.faults self.old.disk) (D.faults self.new.disk) result }
        ensures extent { D.extent self.new.disk ≡ D.extent self.old.disk }
        ensures parts { (self.new.layout ≡ self.old.layout)
            × (self.new.manifest ≡ self.old.manifest) }
        ensures synced { D.tells → (loaded : Loaded) (commits : List a_commit)
            → AtRest D.Device self.old.disk self.old.layout self.old.log self.old.manifest loaded
            → MayCommitAny loaded commits → IsBatchOf batch.entry commits
            → OnOk result (AtRest D.Device self.new.disk self.new.layout self.new.log
            self.new.manifest (with_commits loaded commits)) }
        ensures crash { D.tells → (loaded : Loaded) (commits : List a_commit)
            → AtRest D.Device self.old.disk self.old.layout self.old.log self.old.manifest loaded
            → MayCommitAny loaded commits → IsBatchOf batch.entry commits
            → LeavesOnly D.Device self.old.disk self.new.disk (OldOrCommitted loaded commits) }
    {
        match batch {
            None => Ok(()),
            Some(batch) => self.sync(batch),
        }
    }

    /// Adds an entry behind those of the half in force.
    fn log_entry(&mut self, batch: &Batch) -> Result<(), Failed>
        requires { need_of batch.now ≤ room_in self.old.manifest }
        ensures calls { CallsMade D.Device self.old.disk self.new.disk }
        ensures cause { HasCause (D.faults self.old.disk) (D.faults self.new.disk) result }
        ensures extent { D.extent self.new.disk ≡ D.extent self.old.disk }
        ensures parts { (self.new.layout ≡ self.old.layout) × (self.new.log ≡ self.old.log) }
        ensures placed { OnOk result
            (IsLogged self.old.manifest self.new.manifest (need_of batch.now)) }
        ensures logged { D.tells → (loaded : Loaded) (entry : an_entry)
            → AtRest D.Device self.old.disk self.old.layout self.old.log self.old.manifest loaded
            → MayEnter loaded entry → batch.now ≡ entry_text entry
            → OnOk result (AtRest D.Device self.new.disk self.new.layout self.new.log
            self.new.manifest (logged loaded entry)) }
        ensures crash { D.tells → (loaded : Loaded) (entry : an_entry)
            → AtRest D.Device self.old.disk self.old.layout self.old.log self.old.manifest loaded
            → MayEnter loaded entry → batch.now ≡ entry_text entry
            → LeavesOnly D.Device self.old.disk self.new.disk (OldOrNew loaded (logged loaded entry)) }
    {
        match self.manifest.log(&mut self.disk, batch) {
            Ok(()) => Ok(()),
            Err(ManifestFault::Device) => Err(Failed),
            Err(ManifestFault::ManifestFull(_, _)) => unreachable!(),
        }
    }

    /// Starts the other half with a base.
    fn roll_to(&mut self, base: &Batch) -> Result<(), Failed>
        requires { ¬ IsRollFull self.old.manifest base.now }
        ensures calls { CallsMade D.Device self.old.disk self.new.disk }
        ensures cause { HasCause (D.faults self.old.disk) (D.faults self.new.disk) result }
        ensures extent { D.extent self.new.disk ≡ D.extent self.old.disk }
        ensures parts { (self.new.layout ≡ self.old.layout) × (self.new.log ≡ self.old.log) }
        ensures placed { OnOk result
            (IsRolled self.old.manifest self.new.manifest (need_of base.now)) }
        ensures rolled { D.tells → (loaded : Loaded) (entry : an_entry)
            → AtRest D.Device self.old.disk self.old.layout self.old.log self.old.manifest loaded
            → MayEnter loaded entry → base.now ≡ base_text (metadata_with loaded.metadata entry)
            → OnOk result (AtRest D.Device self.new.disk self.new.layout self.new.log
            self.new.manifest (rolled loaded entry)) }
        ensures crash { D.tells → (loaded : Loaded) (entry : an_entry)
            → AtRest D.Device self.old.disk self.old.layout self.old.log self.old.manifest loaded
            → MayEnter loaded entry → base.now ≡ base_text (metadata_with loaded.metadata entry)
            → LeavesOnly D.Device self.old.disk self.new.disk (OldOrNew loaded (rolled loaded entry)) }
    {
        match self.manifest.roll(&mut self.disk, base) {
            Ok(()) => Ok(()),
            Err(ManifestFault::Device) => Err(Failed),
            Err(ManifestFault::ManifestFull(_, _)) => unreachable!(),
        }
    }

    /// Writes the planned entry.
    fn write_entry(&mut self, plan: &EntryPlan) -> Result<(), Failed>
        requires { HasRoomFor self.old.manifest plan.now }
        ensures calls { CallsMade D.Device self.old.disk self.new.disk }
        ensures cause { HasCause (D.faults self.old.disk) (D.faults self.new.disk) result }
        ensures extent { D.extent self.new.disk ≡ D.extent self.old.disk }
        ensures parts { (self.new.layout ≡ self.old.layout) × (self.new.log ≡ self.old.log) }
        ensures placed { OnOk result (IsPlacedBy self.old.manifest plan.now self.new.manifest) }
        ensures entered { D.tells → (loaded : Loaded) (entry : an_entry)
            → AtRest D.Device self.old.disk self.old.layout self.old.log self.old.manifest loaded
            → MayEnter loaded entry → IsPlanOf self.old.manifest loaded.metadata entry plan.now
            → OnOk result (AtRest D.Device self.new.disk self.new.layout self.new.log
            self.new.manifest (with_entry loaded entry)) }
        ensures crash { D.tells → (loaded : Loaded) (entry : an_entry)
            → AtRest D.Device self.old.disk self.old.layout self.old.log self.old.manifest loaded
            → MayEnter loaded entry → IsPlanOf self.old.manifest loaded.metadata entry plan.now
            → LeavesOnly D.Device self.old.disk self.new.disk (OldOrNew loaded (with_entry loaded entry)) }
    {
        match plan {
            EntryPlan::Log(batch) => self.log_entry(batch),
            EntryPlan::Roll(base) => self.roll_to(base),
        }
    }

    /// Writes the commits, where there are some, and then the planned entry.
    fn enter(&mut self, batch: Option<&Batch>, plan: &EntryPlan) -> Result<(), Failed>
        requires room { LogHasRoomFor self.old.log batch }
        requires planned { HasRoomFor self.old.manifest plan.now }
        ensures calls { CallsMade D.Device self.old.disk self.new.disk }
        ensures cause { HasCause (D.faults self.old.disk) (D.faults self.new.disk) result }
        ensures extent { D.extent self.new.disk ≡ D.extent self.old.disk }
        ensures layout { self.new.layout ≡ self.old.layout }
        ensures placed { OnOk result (IsPlacedBy self.old.manifest plan.now self.new.manifest) }
        ensures entered { D.tells
            → (loaded : Loaded) (commits : List a_commit) (entry : an_entry)
            → AtRest D.Device self.old.disk self.old.layout self.old.log self.old.manifest loaded
            → MayTurn loaded commits entry self.old.manifest batch.entry plan.now
            → OnOk result (AtRest D.Device self.new.disk self.new.layout self.new.log
            self.new.manifest (with_entry (with_commits loaded commits) entry)) }
        ensures crash { D.tells
            → (loaded : Loaded) (commits : List a_commit) (entry : an_entry)
            → AtRest D.Device self.old.disk self.old.layout self.old.log self.old.manifest loaded
            → MayTurn loaded commits entry self.old.manifest batch.entry plan.now
            → LeavesOnly D.Device self.old.disk self.new.disk
            (OldOrEntered loaded commits entry) }
    {
        self.commit(batch)?;
        self.write_entry(plan)
    }

    /// Writes the commits, where there are some, and then the planned creation, and makes both
    /// safe. It takes no memory. Whenever the device stops, it is loaded as before, or with the
    /// commits, or with the new store as well; after `Ok` with all, and nothing is pending, and the
    /// manifest is where the plan puts it. It fails only where the device did.
    ///
    /// The conditions: the commits fit into the log's room, and the plan was made by this device
    /// side, with no device call since. What the clauses say of the device's content is for commits
    /// and a creation that may come next.
    pub fn create_store(&mut self, batch: Option<&Batch>, plan: &EntryPlan) -> Result<(), Failed>
        requires room { LogHasRoomFor self.old.log batch }
        requires planned { HasRoomFor self.old.manifest plan.now }
        ensures calls { CallsMade D.Device self.old.disk self.new.disk }
        ensures cause { HasCause (D.faults self.old.disk) (D.faults self.new.disk) result }
        ensures extent { D.extent self.new.disk ≡ D.extent self.old.disk }
        ensures layout { self.new.layout ≡ self.old.layout }
        ensures placed { OnOk result (IsPlacedBy self.old.manifest plan.now self.new.manifest) }
        ensures created { D.tells
            → (loaded : Loaded) (commits : List a_commit) (store : LiveStore)
            → AtRest D.Device self.old.disk self.old.layout self.old.log self.old.manifest loaded
            → MayTurn loaded commits (create store) self.old.manifest batch.entry plan.now
            → OnOk result (AtRest D.Device self.new.disk self.new.layout self.new.log
            self.new.manifest (with_entry (with_commits loaded commits) (create store))) }
        ensures crash { D.tells
            → (loaded : Loaded) (commits : List a_commit) (store : LiveStore)
            → AtRest D.Device self.old.disk self.old.layout self.old.log self.old.manifest loaded
            → MayTurn loaded commits (create store) self.old.manifest batch.entry plan.now
            → LeavesOnly D.Device self.old.disk self.new.disk
            (OldOrEntered loaded commits (create store)) }
    {
        self.enter(batch, plan)
    }

    /// Writes the commits, where there are some, and then the planned drop, and makes both safe. It
    /// takes no memory. Whenever the device stops, it is loaded as before, or with the commits, or
    /// without the store as well; after `Ok` with all, and nothing is pending, and the manifest is
    /// where the plan puts it. It fails only where the device did.
    ///
    /// The conditions are those of `create_store`, for a drop.
    pub fn drop_store(&mut self, batch: Option<&Batch>, plan: &EntryPlan) -> Result<(), Failed>
        requires room { LogHasRoomFor self.old.log batch }
        requires planned { HasRoomFor self.old.manifest plan.now }
        ensures calls { CallsMade D.Device self.old.disk self.new.disk }
        ensures cause { HasCause (D.faults self.old.disk) (D.faults self.new.disk) result }
        ensures extent { D.extent self.new.disk ≡ D.extent self.old.disk }
        ensures layout { self.new.layout ≡ self.old.layout }
        ensures placed { OnOk result (IsPlacedBy self.old.manifest plan.now self.new.manifest) }
        ensures dropped { D.tells
            → (loaded : Loaded) (commits : List a_commit) (number id : ℕ)
            → AtRest D.Device self.old.disk self.old.layout self.old.log self.old.manifest loaded
            → MayTurn loaded commits (drop number id) self.old.manifest batch.entry plan.now
            → OnOk result (AtRest D.Device self.new.disk self.new.layout self.new.log
            self.new.manifest (with_entry (with_commits loaded commits) (drop number id))) }
        ensures crash { D.tells
            → (loaded : Loaded) (commits : List a_commit) (number id : ℕ)
            → AtRest D.Device self.old.disk self.old.layout self.old.log self.old.manifest loaded
            → MayTurn loaded commits (drop number id) self.old.manifest batch.entry plan.now
            → LeavesOnly D.Device self.old.disk self.new.disk
            (OldOrEntered loaded commits (drop number id)) }
    {
        self.enter(batch, plan)
    }
}
