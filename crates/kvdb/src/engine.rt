//! The engine.

use crate::log_start::LogStart;
use crate::side::Side;
use engine_state::EngineState;
use kvset::Kvset;
use media_disk::Disk;

/// The engine: its device side, or the turn that it is out with, and its state in memory. Beside
/// them it keeps what a base says beside its stores, the manifest's sequence and the count of free slots as
/// of the end of the last turn, and the clock behind the barrier of the last opening.
pub struct Kvdb<D: Disk> {
    pub(crate) side: Side<D>,
    pub(crate) state: EngineState<Kvset>,
    pub(crate) log_start: LogStart,
    pub(crate) sequence: u64,
    pub(crate) free: u64,
    pub(crate) moment: u64,
}
