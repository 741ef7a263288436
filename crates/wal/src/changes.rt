//! Reads the changes of one commit.
ghost use Rattle.std.specs.Prelude.{◌≡◌, None};
ghost use Rattle.hse_fields.specs.LogReading.{changes_of, more_changes_of};
ghost use Rattle.wal.specs.Given.{Gives};
ghost use Rattle.wal.specs.Live.{prefix_fits};
ghost use Rattle.wal.specs.Logged.{logged_all};

use crate::reader::{Reader, are_bytes};
use hse_fields::{Refusal, split_u32};
use hse_rows::{Write, WriteSet};

impl<'b, 'a> Reader<'b, 'a> {
    /// So many changes, each of which may stand behind the one before it.
    fn writes(self, count: u32) -> Result<(Vec<Write>, &'b [u8]), Refusal>
        ensures { Gives (λ x. (logged_all x.0.items, x.1.now)) result
            (more_changes_of (prefix_fits self.entry.live.now) self.entry.most None count
            self.entry.bytes.now) }
    {
        let mut writes = Vec::new(self.alloc);
        let mut rest = self.bytes;
        for _ in 0..count {
            let (write, behind) = Reader {
                bytes: rest,
                ..self
            }
            .change(writes.last())?;
            writes.push(write)?;
            rest = behind;
        }
        Ok((writes, rest))
    }

    /// The changes of a commit behind its number.
    #[tactic(auto, unfolding(hse_fields::specs::LogReading::changes_of))]
    pub(crate) fn changes(self) -> Result<(WriteSet, &'b [u8]), Refusal>
        ensures { Gives (λ x. (logged_all x.0, x.1.now)) result
            (changes_of (prefix_fits self.entry.live.now) self.entry.most self.entry.bytes.now) }
    {
        let (count, rest) = split_u32(self.bytes)?;
        if count == 0 {
            return Err(self.refusal());
        }
        let (writes, behind) = Reader {
            bytes: rest,
            ..self
        }
        .writes(count)?;
        are_bytes(rest);
        let size = (rest.len() - behind.len()) as u64;
        Ok((WriteSet::of_sorted(writes, size), behind))
    }
}
