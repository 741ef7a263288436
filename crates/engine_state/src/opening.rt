//! An engine that was just opened, and what it lends.
ghost use Rattle.std.specs.Prelude.{◌≡◌, ◌≤◌, IfOk};
ghost use Rattle.hse_rows.specs.machine.Core.{Stored, life};
ghost use Rattle.engine_state.specs.Bounds.{greatest_segment};
ghost use Rattle.engine_state.specs.Serves.{Serves, IsOpened};

use crate::sizes::EngineSizes;
use crate::state::EngineState;
use hse_io::NoMemory;
use hse_rows::Shared;
use key_locks::{KeyLocks, empty_locks_stand};
use std::alloc::Global;
use view::View;
use wal::Waiting;

impl<R: Shared> EngineState<R> {
    /// An engine that was just opened, over the state that its device stores, with what the commits of
    /// the active segment take of it.
    ///
    /// The conditions: a segment has 67,108,864 bytes at most, and these commits take no more than it.
    pub fn of(
        alloc: Global,
        view: View<R>,
        charge: u64,
        sizes: EngineSizes,
    ) -> Result<EngineState<R>, NoMemory>
        requires segment { sizes.segment_size ≤ greatest_segment }
        requires charged { charge ≤ sizes.segment_size }
        ensures { IfOk result (λ state. (stored : Stored)
            → IsOpened R.RowSet view charge sizes stored → Serves R.RowSet state (life stored)) }
    {
        empty_locks_stand();
        let waiting = Waiting::new(alloc)?;
        let safe = view.number();
        Ok(EngineState {
            view,
            locks: KeyLocks::empty(alloc),
            live: Vec::new(alloc),
            begins: 0,
            charge,
            waiting,
            safe,
            is_broken: false,
            cursors: 0,
            sizes,
        })
    }

    /// The present state, lent. It takes no memory.
    pub fn view(&self) -> &View<R>
        ensures { result.now ≡ self.now.view }
    {
        &self.view
    }

    /// The last number. It takes no memory.
    pub fn number(&self) -> u64
        ensures { result ≡ self.now.view.number }
    {
        self.view.number()
    }

    /// What the commits of the active segment take of it, in bytes. It takes no memory.
    pub fn charge(&self) -> u64
        ensures { result ≡ self.now.charge }
    {
        self.charge
    }

    /// The number up to which all is on the device for good. It takes no memory.
    pub fn safe(&self) -> u64
        ensures { result ≡ self.now.safe }
    {
        self.safe
    }

    /// Whether a device call failed since the opening. It takes no memory.
    pub fn is_broken(&self) -> bool
        ensures { result ≡ self.now.is_broken }
    {
        self.is_broken
    }
}
