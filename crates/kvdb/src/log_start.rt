//! What a base says beside its stores.
ghost use Rattle.std.specs.Prelude.{◌≤◌, ◌^◌};

use hse_rows::TakenRun;

/// What a base says beside its stores: the horizon, the least sequence of the log that is still needed,
/// and the numbers of creations and drops above the horizon, with that of the turn that is out.
#[derive(Drop)]
pub(crate) struct LogStart {
    pub(crate) horizon: u64,
    pub(crate) first: u64,
    pub(crate) taken: Vec<TakenRun>,
    ghost small: { horizon ≤ 2 ^ 62 },
}
