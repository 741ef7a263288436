//! Reads a segment from what its region holds.
ghost use Rattle.std.specs.Prelude.{◌≡◌, ℕ, ◌+◌, ◌^◌, ◌≤◌, List, Some, IfOk, IsErrOf};
ghost use Rattle.hse_rows.specs.machine.TakenRuns.{numbers_of, runs_as};
ghost use Rattle.gate_log.specs.Reading.{payloads_of, IsFront, LiesInside};
ghost use Rattle.wal.specs.Replaying.{segment_of, starting, IsReplay, Says};
ghost use Rattle.wal.specs.Sound.{IsSound};
ghost use Rattle.wal.specs.Taking.{SaysTo};

use crate::expected::Expected;
use crate::reader::Reader;
use crate::take::TakeCommits;
use crate::{Segment, SegmentEnd, SegmentFault, StorePrefix};
use gate_log::{End, Front};
use hse_rows::TakenRun;
use std::alloc::Global;

/// What a region's end takes of a segment's room, in bytes.
pub(crate) const END: u64 = 64;

/// Reads a segment by what the region of this size holds, as `gate_log::read_front` gives it; so a
/// caller can test the sequence first. Its commits are taken one by one, and where they are read to
/// the end it says how the segment ends. Values have at most `most` bytes, the first commit has the
/// number `next` or, where that is taken, the first one behind it that is not; `taken` are the
/// numbers that the manifest has taken, ascending, in runs. `live` has the prefix length of each live
/// store.
///
/// `Damaged` has the place in the region of the first field that is refused: of the first batch
/// that the log's text refuses, the length of a prefix delete's prefix that is above its live
/// store's, a commit's number that is not the next one or is above 2^62, a commit that takes more
/// than the region's size less 64 leaves, at its number, or the length of a batch that does not lie
/// inside the region. A commit that takes too much is refused before any length in its changes,
/// where these can be read at all, since its number is the lower place. Commits before the place may
/// have been taken.
///
/// The conditions: the batches lie inside a region of this size, and the first number is at most
/// 2^62 + 1.
pub fn segment_into<'a, S: TakeCommits>(
    alloc: Global,
    size: u64,
    most: u64,
    next: u64,
    taken: &'a [TakenRun],
    live: &'a [StorePrefix],
    front: Front,
    commits: &mut S,
) -> Result<SegmentEnd, SegmentFault>
    requires inside { LiesInside size (payloads_of front.batches.items) front.end }
    requires next { next ≤ 2 ^ 62 + 1 }
    // Whatever the device tells.
    ensures says { SaysTo (segment_of live.now most
        (starting next (numbers_of (runs_as taken.now)) size)
        (payloads_of front.batches.items) front.end)
        (S.took commits.old) (S.took commits.new) front result }
    // The place lies in the region, or at its end.
    ensures within { (place : ℕ) → IsErrOf result (SegmentFault.Damaged place) → place ≤ size }
{
    let room = size.saturating_sub(END);
    let reader = Reader {
        alloc,
        bytes: &[],
        most,
        live,
        expected: Expected { next, taken, room },
    };
    let last = reader.batches(&front.batches, commits)?;
    match front.end {
        End::CutOff(place) => Err(SegmentFault::Damaged(place)),
        End::Closed(tail) => Ok(SegmentEnd {
            sequence: front.sequence,
            charges: room - last.room,
            tail,
            next: last.next,
        }),
    }
}

/// The same with the segment's commits in a list.
pub fn segment_in<'a>(
    alloc: Global,
    size: u64,
    most: u64,
    next: u64,
    taken: &'a [TakenRun],
    live: &'a [StorePrefix],
    front: Front,
) -> Result<Segment, SegmentFault>
    requires inside { LiesInside size (payloads_of front.batches.items) front.end }
    requires next { next ≤ 2 ^ 62 + 1 }
    ensures read { (region : List ℕ) → IsFront region (Some front)
        → IsReplay region live.now most
        (starting next (numbers_of (runs_as taken.now)) size) result }
    // The same whatever the device tells.
    ensures gives { Says (segment_of live.now most
        (starting next (numbers_of (runs_as taken.now)) size)
        (payloads_of front.batches.items) front.end) result }
    // The place lies in the region, or at its end.
    ensures within { (place : ℕ) → IsErrOf result (SegmentFault.Damaged place) → place ≤ size }
    ensures sound { IfOk result (IsSound size next (numbers_of (runs_as taken.now)) live.now front) }
{
    let mut commits = Vec::new(alloc);
    let end = segment_into(alloc, size, most, next, taken, live, front, &mut commits)?;
    Ok(Segment {
        sequence: end.sequence,
        commits,
        charges: end.charges,
        tail: end.tail,
        next: end.next,
    })
}
