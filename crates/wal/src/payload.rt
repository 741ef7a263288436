//! Reads the commits of one batch.
ghost use Rattle.std.specs.Prelude.{◌≡◌};
ghost use Rattle.hse_fields.specs.LogReading.{entries_of as entries_read, payload_of};
ghost use Rattle.wal.specs.Expected.{numbers_as};
ghost use Rattle.wal.specs.Taking.{GivesTo};
ghost use Rattle.wal.specs.Numbering.{numbering};

use crate::expected::Expected;
use crate::reader::Reader;
use crate::take::TakeCommits;
use hse_fields::{Refusal, split_u32};

impl<'b, 'a> Reader<'b, 'a> {
    /// Takes so many commits, and gives what may come after them.
    fn entries<S: TakeCommits>(
        self,
        count: u32,
        commits: &mut S,
    ) -> Result<(Expected<'a>, &'b [u8]), Refusal>
        ensures { GivesTo (λ entries x. ((entries, numbers_as x.0), x.1.now))
            (S.took commits.old) (S.took commits.new) result
            (entries_read (numbering self.entry.live.now) self.entry.most
            (numbers_as self.entry.expected) count self.entry.bytes.now) }
    {
        let mut expected = self.expected;
        let mut rest = self.bytes;
        for _ in 0..count {
            let reader = Reader {
                bytes: rest,
                expected,
                ..self
            };
            let ((commit, after), behind) = reader.entry()?;
            commits.take(commit)?;
            expected = after;
            rest = behind;
        }
        Ok((expected, rest))
    }

    /// Takes the commits of a whole payload, and gives what may come after them. Bytes that are left
    /// over behind them are refused at the batch's length, the four bytes before the payload.
    #[tactic(auto, unfolding(hse_fields::specs::LogReading::payload_of))]
    pub(crate) fn payload<S: TakeCommits>(self, commits: &mut S) -> Result<Expected<'a>, Refusal>
        ensures { GivesTo (λ entries x. (entries, numbers_as x))
            (S.took commits.old) (S.took commits.new) result
            (payload_of (numbering self.entry.live.now) self.entry.most
            (numbers_as self.entry.expected) self.entry.bytes.now) }
    {
        let (count, rest) = split_u32(self.bytes)?;
        if count == 0 {
            return Err(self.refusal());
        }
        let (after, rest) = Reader {
            bytes: rest,
            ..self
        }
        .entries(count, commits)?;
        if !rest.is_empty() {
            return Err(Refusal::Left(4 + self.bytes.len() as u64));
        }
        Ok(after)
    }
}
