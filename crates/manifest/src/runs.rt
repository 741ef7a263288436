//! Reads the taken numbers of a base.
ghost use Rattle.std.specs.Prelude.{◌≡◌, ◌≤◌, ◌^◌, true, IfOk};
ghost use Rattle.manifest.specs.Reading.{run_of, runs_of};
ghost use Rattle.manifest.specs.Views.{Gives};
ghost use Rattle.hse_rows.specs.machine.TakenRuns.{run_as, runs_as};

use hse_fields::{Refusal, split_u32};
use hse_rows::TakenRun;
use std::alloc::Global;

/// The greatest number of a history.
pub(crate) const GREATEST_NUMBER: u64 = 4_611_686_018_427_387_904;

/// A run behind this number, which may join the one before it or not, and the bytes behind it.
#[tactic(auto, unfolding(crate::specs::Reading::run_of))]
fn run(bytes: &[u8], low: u64, joins: bool) -> Result<(TakenRun, &[u8]), Refusal>
    requires { low ≤ 2 ^ 62 }
    ensures { Gives (λ x. (run_as x.0, x.1.now)) result (run_of low joins bytes.now) }
{
    let (gap, rest) = split_u32(bytes)?;
    if gap == 0 && !joins {
        return Err(Refusal::Left(bytes.len() as u64));
    }
    let before = low + gap as u64;
    if before >= GREATEST_NUMBER {
        return Err(Refusal::Left(bytes.len() as u64));
    }
    let (count, behind) = split_u32(rest)?;
    if count == 0 {
        return Err(Refusal::Left(rest.len() as u64));
    }
    if before + count as u64 > GREATEST_NUMBER {
        return Err(Refusal::Left(rest.len() as u64));
    }
    let first = before + 1;
    Ok((TakenRun { first, count }, behind))
}

/// So many runs above this number.
pub(crate) fn runs_behind(
    alloc: Global,
    horizon: u64,
    count: u32,
    bytes: &[u8],
) -> Result<(Vec<TakenRun>, &[u8]), Refusal>
    requires { horizon ≤ 2 ^ 62 }
    ensures { Gives (λ x. (runs_as x.0.items, x.1.now)) result (runs_of horizon count bytes.now) }
{
    let mut runs = Vec::new(alloc);
    let mut low = horizon;
    let mut joins = true;
    let mut rest = bytes;
    let mut left = count;
    while left > 0 {
        let (run, behind) = run(rest, low, joins)?;
        runs.push(run)?;
        low = run.first + (run.count as u64 - 1);
        joins = run.count == u32::MAX;
        rest = behind;
        left -= 1;
    }
    Ok((runs, rest))
}
