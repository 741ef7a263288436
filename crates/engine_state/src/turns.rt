//! What turns take of the state, and what their ends leave there.
ghost use Rattle.std.specs.Prelude.{◌≡◌, ℕ, false, true, IfOk, IfSome};
ghost use Rattle.wal.specs.Charges.{entries_charge, HasEntries};
ghost use Rattle.wal.specs.Waits.{charge_in};
ghost use Rattle.hse_rows.specs.machine.Core.{Core};
ghost use Rattle.engine_state.specs.Serves.{ServesAbove};
ghost use Rattle.engine_state.specs.Turns.{Hands};

use crate::state::EngineState;
use gate_log::Batch;
use hse_io::NoMemory;
use hse_rows::Shared;
use std::alloc::Global;
use std::mem;
use wal::Waiting;

impl<R: Shared> EngineState<R> {
    /// What the commits that wait take of a segment's room, in bytes. It takes no memory.
    pub fn waiting_charge(&self) -> u64
        ensures { result ≡ charge_in self.now.waiting }
    {
        self.waiting.charge()
    }

    /// The batch of the commits that wait, and none where none waits; from then on none does. Nothing is
    /// copied. Out of memory, all stays as it was.
    pub fn take_waiting(&mut self, alloc: Global) -> Result<Option<Batch>, NoMemory>
        ensures hands { (m : Core) (handed : ℕ) → m.is_broken ≡ false → ServesAbove R.RowSet self.old m handed
            → Hands R.RowSet m handed result self.new }
        ensures charged { IfOk result (λ taken. IfSome taken (λ batch. HasEntries batch
            × (entries_charge batch ≡ charge_in self.old.waiting))) }
    {
        if self.waiting.len() == 0 {
            return Ok(None);
        }
        let next = Waiting::new(alloc)?;
        let taken = mem::replace(&mut self.waiting, next);
        Ok(Some(taken.into_batch()))
    }

    /// All up to this number is on the device for good. It takes no memory.
    pub fn settle(&mut self, number: u64)
        ensures { (m : Core) (handed : ℕ) → ServesAbove R.RowSet self.old m handed
            → ServesAbove R.RowSet self.new (record m { safe = number }) handed }
    {
        self.safe = number;
    }

    /// A device call failed: the engine is broken until it is opened anew. It takes no memory.
    pub fn break_down(&mut self)
        ensures serves { (m : Core) (handed later : ℕ) → ServesAbove R.RowSet self.old m handed
            → ServesAbove R.RowSet self.new (record m { is_broken = true }) later }
        ensures broken { self.new.is_broken ≡ true }
    {
        self.is_broken = true;
    }
}
