//! Marks are added.
ghost use Rattle.std.specs.Prelude.{◌≡◌, ◌+◌, ◌<◌, ◌≤◌, ◌++◌, [], ◌∷◌, IfSome, OnOk, vec_len, vec_capacity};
ghost use Rattle.kvdb.specs.Sides.{clock_in};
ghost use Rattle.lives.specs.Serves.{IsSame, Notes};

use crate::run::Lives;
use hse_io::{Mark, NoMemory};
use media_disk::Disk;

/// Adds a mark in room that was made before.
pub(crate) fn push_reserved(marks: &mut Vec<Mark>, mark: Mark)
    requires { vec_len marks.old < vec_capacity marks.old }
    ensures items { marks.new.items ≡ marks.old.items ++ mark ∷ [] }
    ensures len { vec_len marks.new ≡ vec_len marks.old + 1 }
    ensures room { vec_capacity marks.old ≤ vec_capacity marks.new }
{
    marks.push(mark).unwrap();
}

impl<D: Disk> Lives<D> {
    /// Makes room for one mark more, beside that of the closing.
    pub(crate) fn make_room(&mut self) -> Result<(), NoMemory>
        ensures room { OnOk result (vec_len self.new.marks + 1 < vec_capacity self.new.marks) }
        ensures same { IsSame self.old self.new }
    {
        self.marks.reserve(2)?;
        Ok(())
    }

    /// Adds a mark of the life that goes on, in room that was made before.
    pub(crate) fn note(&mut self, number: u64, moment: u64)
        requires { vec_len self.old.marks + 1 < vec_capacity self.old.marks }
        ensures { Notes self.old self.new self.old.life number moment }
    {
        let mark = Mark {
            life: self.life,
            number,
            moment,
        };
        push_reserved(&mut self.marks, mark);
    }

    /// The same, with the disk's clock. Where a turn is out nothing is added.
    pub(crate) fn note_now(&mut self, number: u64)
        requires { vec_len self.old.marks + 1 < vec_capacity self.old.marks }
        ensures phases { self.new.phases ≡ self.old.phases }
        ensures noted { IfSome (clock_in D.Device self.old.phases.db.side)
            (λ clock. Notes self.old self.new self.old.life number clock) }
    {
        match self.phases.clock() {
            Some(clock) => self.note(number, clock),
            None => {}
        }
    }

    /// A next life begins, with its first mark.
    pub(crate) fn note_life(&mut self, number: u64, moment: u64)
        requires { vec_len self.old.marks + 1 < vec_capacity self.old.marks }
        ensures { Notes self.old self.new (self.old.life + 1) number moment }
    {
        let mark = Mark {
            life: self.life + 1,
            number,
            moment,
        };
        push_reserved(&mut self.marks, mark);
        self.life += 1;
    }
}
