//! Which entry may come next.
ghost use Rattle.std.specs.Prelude.{◌≡◌, ◌+◌, ◌≤◌, ◌^◌};
ghost use Rattle.hse_rows.specs.machine.TakenRuns.{numbers_of, runs_as};
ghost use Rattle.wal.specs.Numbering.{free_from, taken_from};
ghost use Rattle.wal.specs.Past.{past};

use hse_rows::TakenRun;

/// What is known between two entries: the least number that may come, unless it is taken; the taken
/// numbers from there on, ascending, in runs; and what is left of the segment's room, in bytes.
#[derive(Clone, Copy)]
pub(crate) struct Expected<'a> {
    pub(crate) next: u64,
    pub(crate) taken: &'a [TakenRun],
    pub(crate) room: u64,
    ghost numbered: { next ≤ 2 ^ 62 + 1 },
}

/// The greatest number of a history.
pub(crate) const GREATEST_NUMBER: u64 = 4_611_686_018_427_387_904;

/// The first number that is at least this one and behind the run.
fn number_past(next: u64, run: TakenRun) -> u64
    requires { next ≤ 2 ^ 62 + 1 }
    ensures past { result ≡ past next run.first run.count }
    ensures small { result ≤ 2 ^ 62 + 1 }
{
    let end = run.first + run.count as u64;
    if next < end {
        return end;
    }
    next
}

/// The first number from this one on that is not taken, and the runs of taken numbers behind it.
pub fn first_free(next: u64, taken: &[TakenRun]) -> (u64, &[TakenRun])
    requires { next ≤ 2 ^ 62 + 1 }
    ensures number { result.0 ≡ free_from next (numbers_of (runs_as taken.now)) }
    ensures taken { numbers_of (runs_as result.1.now)
        ≡ taken_from next (numbers_of (runs_as taken.now)) }
    ensures small { result.0 ≤ 2 ^ 62 + 1 }
{
    let mut next = next;
    let mut rest = taken;
    while let [run, more @ ..] = rest {
        if next < run.first {
            return (next, rest);
        }
        next = number_past(next, *run);
        rest = more;
    }
    (next, rest)
}
