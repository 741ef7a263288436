//! The engine without its device.
ghost use Rattle.std.specs.Prelude.{◌≤◌, length};
ghost use Rattle.engine_state.specs.Bounds.{greatest_segment};

use crate::live::LiveTxn;
use crate::sizes::EngineSizes;
use hse_rows::Shared;
use key_locks::KeyLocks;
use view::View;
use wal::Waiting;

/// The engine without its device. It keeps the present state, and neither the history nor the writes
/// of transactions.
#[derive(Drop)]
pub struct EngineState<R: Shared> {
    pub(crate) view: View<R>,
    pub(crate) locks: KeyLocks,
    pub(crate) live: Vec<LiveTxn>,
    pub(crate) begins: u64,
    pub(crate) charge: u64,
    pub(crate) waiting: Waiting,
    pub(crate) safe: u64,
    pub(crate) is_broken: bool,
    pub(crate) cursors: u64,
    pub(crate) sizes: EngineSizes,
    ghost segment: { sizes.segment_size ≤ greatest_segment },
    ghost charged: { charge ≤ sizes.segment_size },
    ghost waits: { length waiting.text ≤ charge },
}
