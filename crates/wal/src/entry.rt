//! Reads one commit.
ghost use Rattle.std.specs.Prelude.{◌≡◌, ℕ, List, Ok, Err, IfOk, IfErr};
ghost use Rattle.hse_fields.specs.LogReading.{changes_of, has_room as room_for};
ghost use Rattle.hse_fields.specs.LogReading.{entry_of as entry_read};
ghost use Rattle.wal.specs.Expected.{numbers_as};
ghost use Rattle.wal.specs.Given.{Fails, Gives};
ghost use Rattle.wal.specs.Live.{prefix_fits};
ghost use Rattle.wal.specs.Logged.{entry_of, logged_all};
ghost use Rattle.wal.specs.Numbering.{numbering};
ghost use Rattle.wal.specs.Room.{changes_in_room};
ghost use Rattle.wal.specs.declared.live.StorePrefix.{StorePrefix as a_prefix};

use crate::Commit;
use crate::expected::{Expected, GREATEST_NUMBER, first_free};
use crate::reader::{Reader, are_bytes};
use hse_fields::{LONGEST_VALUE, Refusal, split_u64};
use hse_io::NoMemory;
use hse_rows::WriteSet;

impl<'b, 'a> Reader<'b, 'a> {
    /// Whether there is room for an entry with these changes, as far as they can be read at all:
    /// whatever stores are live, and however long its values are.
    fn has_room(self) -> Result<bool, NoMemory>
        ensures { IfOk result (λ enough. (live : List a_prefix) (number : ℕ) → enough
            ≡ room_for (numbering live) (numbers_as self.entry.expected) number
            self.entry.bytes.now) }
    {
        let most = LONGEST_VALUE;
        match (Reader {
            most,
            live: &[],
            ..self
        })
        .changes()
        {
            Ok((writes, _)) => Ok(writes.charge() <= self.expected.room),
            Err(Refusal::Left(_)) => Ok(true),
            Err(Refusal::NoMemory) => Err(NoMemory),
        }
    }

    /// How an entry is refused whose changes are refused there, where it has so many bytes from its
    /// number on: at the number, since that is the lower place, where there is no room for it.
    fn refusal_of_changes(self, left: u64, there: u64) -> Refusal
        ensures { (live : List a_prefix) (most number : ℕ)
            → changes_of (prefix_fits live) most self.entry.bytes.now ≡ Err there
            → Fails result (changes_in_room live most (numbers_as self.entry.expected) number left
            self.entry.bytes.now) }
    {
        match self.has_room() {
            Ok(true) => Refusal::Left(there),
            Ok(false) => Refusal::Left(left),
            Err(NoMemory) => Refusal::NoMemory,
        }
    }

    /// The changes of an entry behind its number, where it has so many bytes from its number on.
    /// Only where they are refused they are read once more, for what they take of the room.
    fn changes_of_entry(self, left: u64) -> Result<(WriteSet, &'b [u8]), Refusal>
        ensures read { IfOk result (λ x.
            changes_of (prefix_fits self.entry.live.now) self.entry.most self.entry.bytes.now
            ≡ Ok (logged_all x.0, x.1.now)) }
        ensures refused { (number : ℕ) → IfErr result (λ refusal. Fails refusal
            (changes_in_room self.entry.live.now self.entry.most (numbers_as self.entry.expected)
            number left self.entry.bytes.now)) }
    {
        match self.changes() {
            Ok(read) => Ok(read),
            Err(Refusal::Left(there)) => Err(self.refusal_of_changes(left, there)),
            Err(Refusal::NoMemory) => Err(Refusal::NoMemory),
        }
    }

    /// The next commit, and what may come after it.
    #[tactic(auto, unfolding(hse_fields::specs::LogReading::entry_of))]
    pub(crate) fn entry(self) -> Result<((Commit, Expected<'a>), &'b [u8]), Refusal>
        ensures { Gives (λ x. ((entry_of x.0.0, numbers_as x.0.1), x.1.now)) result
            (entry_read (numbering self.entry.live.now) self.entry.most
            (numbers_as self.entry.expected) self.entry.bytes.now) }
    {
        let left = self.bytes.len() as u64;
        let (number, rest) = split_u64(self.bytes)?;
        are_bytes(rest);
        let (next, taken) = first_free(self.expected.next, self.expected.taken);
        if number != next {
            return Err(self.refusal());
        }
        if number > GREATEST_NUMBER {
            return Err(self.refusal());
        }
        let (writes, rest) = Reader {
            bytes: rest,
            ..self
        }
        .changes_of_entry(left)?;
        let charge = writes.charge();
        if self.expected.room < charge {
            return Err(self.refusal());
        }
        let next = number + 1;
        let room = self.expected.room - charge;
        let after = Expected { next, taken, room };
        Ok(((Commit { number, writes }, after), rest))
    }
}
