//! One commit more in the present state.
ghost use Rattle.std.specs.Prelude.{◌≡◌, ◌+◌, ◌<◌, ◌≤◌, ◌^◌, IfOk, OnOk, OnErr};
ghost use Rattle.hse_rows.specs.writes.Charge.{charge_of};
ghost use Rattle.engine_state.specs.Kept.{IsLogged, IsSame, left_of, room_of};

use crate::layers::active_with;
use crate::state::EngineState;
use hse_io::NoMemory;
use hse_rows::{Shared, WriteSet};
use std::alloc::Global;
use view::commits_happen;
use wal::charge_is_length;

/// What a segment has beside its room.
const BESIDE_ROOM: u64 = 64;

impl<R: Shared> EngineState<R> {
    /// What a segment has room for.
    pub(crate) fn room(&self) -> u64
        ensures { result ≡ room_of self.now }
    {
        self.sizes.segment_size.saturating_sub(BESIDE_ROOM)
    }

    /// What the active segment has left.
    pub(crate) fn left(&self) -> u64
        ensures { result ≡ left_of self.now }
    {
        self.room().saturating_sub(self.charge)
    }

    /// One commit more, for which the segment has room, and its number. Out of memory, all stays as it
    /// was.
    pub(crate) fn log(&mut self, alloc: Global, writes: &WriteSet) -> Result<u64, NoMemory>
        requires number { self.old.view.number < 2 ^ 62 }
        requires room { charge_of writes.now ≤ left_of self.old }
        ensures logged { OnOk result (IsLogged self.old writes.now self.new) }
        ensures number { IfOk result (λ number. number ≡ self.old.view.number + 1) }
        ensures unchanged { OnErr result (IsSame self.old self.new) }
    {
        commits_happen::<R>();
        charge_is_length();
        let number = self.view.number() + 1;
        let _count = writes.len();
        let Ok(layer) = active_with(alloc, &self.view, number, writes) else {
            return Err(NoMemory);
        };
        let Ok(()) = self.waiting.add(alloc, number, writes) else {
            return Err(NoMemory);
        };
        self.view.set_active(number, layer);
        self.charge += writes.charge();
        Ok(number)
    }
}
