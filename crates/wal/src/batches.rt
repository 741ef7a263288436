//! Reads the commits of a segment's batches.
ghost use Rattle.std.specs.Prelude.{◌≡◌, ◌+◌, ◌≤◌, ◌<◌, ◌^◌, length, IfOk};
ghost use Rattle.gate_log.specs.Gates.{first_gate};
ghost use Rattle.gate_log.specs.Places.{need_of, tail_of};
ghost use Rattle.gate_log.specs.Reading.{payloads_of};
ghost use Rattle.hse_fields.specs.LogReading.{payload_of};
ghost use Rattle.wal.specs.Expected.{numbers_as};
ghost use Rattle.wal.specs.Numbering.{numbering};
ghost use Rattle.wal.specs.Replaying.{before, batches_of};
ghost use Rattle.wal.specs.Taking.{TellsTo};

use crate::SegmentFault;
use crate::expected::Expected;
use crate::reader::{Reader, are_bytes};
use crate::take::TakeCommits;
use gate_log::{FIRST_GATE, FRAME_SIZE, Payload};
use hse_fields::Refusal;

impl<'b, 'a> Reader<'b, 'a> {
    /// Takes the commits of a batch that ends at this place of its region, and gives what may come
    /// after them.
    fn batch<S: TakeCommits>(self, end: u64, commits: &mut S) -> Result<Expected<'a>, SegmentFault>
        requires { 4 + length self.bytes.now ≤ end }
        ensures gives { TellsTo (λ entries x. (entries, numbers_as x))
            (S.took commits.old) (S.took commits.new) result (before end
            (payload_of (numbering self.entry.live.now) self.entry.most
            (numbers_as self.entry.expected) self.entry.bytes.now)) }
        // The batch takes no more than its charges.
        ensures sized { IfOk result (λ x.
            5 + length self.entry.bytes.now + x.room ≤ self.entry.expected.room) }
    {
        are_bytes(self.bytes);
        match self.payload(commits) {
            Ok(after) => Ok(after),
            Err(Refusal::Left(left)) => Err(SegmentFault::Damaged(end - left)),
            Err(Refusal::NoMemory) => Err(SegmentFault::NoMemory),
        }
    }

    /// Takes the commits of these batches of a region, the first of them behind its sequence, and
    /// gives what may come after them.
    pub(crate) fn batches<S: TakeCommits>(
        self,
        batches: &[Payload],
        commits: &mut S,
    ) -> Result<Expected<'a>, SegmentFault>
        requires { tail_of (payloads_of batches.now) < 2 ^ 64 }
        ensures gives { TellsTo (λ entries x. (entries, numbers_as x))
            (S.took commits.old) (S.took commits.new) result
            (batches_of self.entry.live.now self.entry.most (numbers_as self.entry.expected)
            first_gate (payloads_of batches.now)) }
        // The batches take no more than the charges; the sequence stands before the first of them.
        ensures sized { IfOk result (λ x. tail_of (payloads_of batches.now) + x.room
            ≤ first_gate + self.entry.expected.room) }
    {
        let mut expected = self.expected;
        let mut gate = FIRST_GATE;
        for batch in batches {
            let end = gate + FRAME_SIZE + batch.bytes.len() as u64;
            let reader = Reader {
                bytes: &batch.bytes,
                expected,
                ..self
            };
            expected = reader.batch(end, commits)?;
            gate = end;
        }
        Ok(expected)
    }
}
