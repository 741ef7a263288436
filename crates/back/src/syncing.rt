//! Writes commits.
ghost use Rattle.std.specs.Prelude.{◌≡◌, ◌≤◌, ℕ, List, OnOk};
ghost use Rattle.hse_io.specs.Faults.{HasCause};
ghost use Rattle.media_disk.specs.Calls.{CallsMade};
ghost use Rattle.media_disk.specs.Leaves.{LeavesOnly};
ghost use Rattle.hse_fields.specs.LogText.{payload_text};
ghost use Rattle.hse_fields.specs.LogText.{Entry as a_commit};
ghost use Rattle.recovery.specs.Image.{Loaded};
ghost use Rattle.wal.specs.Charges.{entries_charge, HasEntries};
ghost use Rattle.wal.specs.Writing.{room_in};
ghost use Rattle.back.specs.Home.{AtRest};
ghost use Rattle.back.specs.Leaving.{OldOrCommitted};
ghost use Rattle.back.specs.Steps.{with_commits, MayCommit};

use crate::Back;
use gate_log::Batch;
use media_disk::{Disk, Failed};
use wal::WalFault;

impl<D: Disk> Back<D> {
    /// Writes a batch of commits to the log, and makes it safe. It takes no memory. Whenever the
    /// device stops, it is loaded as before, or with these commits behind the others; after `Ok`
    /// with them, and nothing is pending. It fails only where the device did.
    ///
    /// The conditions: the batch has a commit and fits into the log's room; what the clauses say of
    /// the device's content is for commits that may come next.
    pub fn sync(&mut self, batch: &Batch) -> Result<(), Failed>
        requires entries { HasEntries batch.now }
        requires room { entries_charge batch.now ≤ room_in self.old.log }
        ensures calls { CallsMade D.Device self.old.disk self.new.disk }
        ensures cause { HasCause (D.faults self.old.disk) (D.faults self.new.disk) result }
        ensures extent { D.extent self.new.disk ≡ D.extent self.old.disk }
        ensures parts { (self.new.layout ≡ self.old.layout)
            × (self.new.manifest ≡ self.old.manifest) }
        ensures synced { D.tells → (loaded : Loaded) (commits : List a_commit)
            → AtRest D.Device self.old.disk self.old.layout self.old.log self.old.manifest loaded
            → MayCommit loaded commits → batch.now ≡ payload_text commits
            → OnOk result (AtRest D.Device self.new.disk self.new.layout self.new.log
            self.new.manifest (with_commits loaded commits)) }
        ensures crash { D.tells → (loaded : Loaded) (commits : List a_commit)
            → AtRest D.Device self.old.disk self.old.layout self.old.log self.old.manifest loaded
            → MayCommit loaded commits → batch.now ≡ payload_text commits
            → LeavesOnly D.Device self.old.disk self.new.disk (OldOrCommitted loaded commits) }
    {
        match self.log.write_batch(&mut self.disk, batch) {
            Ok(()) => Ok(()),
            Err(WalFault::Device) => Err(Failed),
            Err(WalFault::LogFull(_, _)) => unreachable!(),
        }
    }
}
