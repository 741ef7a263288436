//! What takes the commits of a log.
ghost use Rattle.std.specs.Prelude.{◌≡◌, ◌∷◌, ◌++◌, [], List, OnOk};
ghost use Rattle.hse_fields.specs.LogText.{Entry};
ghost use Rattle.wal.specs.Logged.{entry_of, entries_of};

use crate::Commit;
use hse_io::NoMemory;

/// What takes the commits of a log one by one, as they are read.
pub trait TakeCommits {
    /// Whether these are the entries of the commits that it took.
    ghost took: { Self → List Entry → Type 0 };

    /// Takes one commit more.
    fn take(&mut self, commit: Commit) -> Result<(), NoMemory>
        ensures { (entries : List Entry) → took self.old entries
            → OnOk result (took self.new (entries ++ entry_of commit ∷ [])) };
}

impl TakeCommits for Vec<Commit> {
    ghost took = { λ commits entries. entries_of commits.items ≡ entries };

    fn take(&mut self, commit: Commit) -> Result<(), NoMemory> {
        self.push(commit)?;
        Ok(())
    }
}
