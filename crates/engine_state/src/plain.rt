//! Writes outside of transactions.
ghost use Rattle.std.specs.Prelude.{◌≡◌, ◌<◌, ◌^◌, [], ◌∷◌, None, IfOk};
ghost use Rattle.hse_rows.specs.states.State.{Store as a_store};
ghost use Rattle.hse_rows.specs.writes.Change.{change_of, write_of};
ghost use Rattle.hse_rows.specs.writes.NormalForm.{normal_form};
ghost use Rattle.hse_rows.specs.machine.Calls as call;
ghost use Rattle.hse_rows.specs.machine.Core.{Core};
ghost use Rattle.hse_rows.specs.machine.Replies as answer;
ghost use Rattle.engine_state.specs.Serves.{IsSound, Serves};
ghost use Rattle.engine_state.specs.Says.{SaysWrite, Fronts};
ghost use Rattle.engine_state.specs.Steps.{Steps};
ghost use Rattle.engine_state.specs.Plain.{plain_front, IsLoggedWrite};

use crate::faults::WriteFault;
use crate::layers::change_with;
use crate::lengths::change_fault;
use crate::limits::GREATEST_NUMBER;
use crate::state::EngineState;
use hse_io::NoMemory;
use hse_rows::{
    ChangeRef, Mode, Shared, StoreId, StoreName, WriteSet, conflicts_are_of_transactions,
    longest_value,
};
use key_locks::locks_stand_after_moves;
use std::alloc::Global;
use view::{ViewStore, commits_happen};

/// One change of a store as a commit.
fn one_write(alloc: Global, store: StoreId, change: ChangeRef<'_>) -> Result<WriteSet, NoMemory>
    ensures { IfOk result (λ writes. writes ≡ normal_form (write_of store (change_of change.entry) ∷ [])) }
{
    let mut writes = WriteSet::empty(alloc);
    writes.add(store, change_with(alloc, change)?)?;
    Ok(writes)
}

impl<R: Shared> EngineState<R> {
    /// Why a store takes no such write outside of transactions, or the engine takes no commit.
    fn plain_fault(&self, store: &ViewStore<R>, change: ChangeRef<'_>) -> Option<WriteFault>
        ensures front { (m : Core) (live : a_store) → Serves R.RowSet self.now m
            → live.mode ≡ store.now.mode → live.prefix_length ≡ store.now.prefix
            → Fronts result (plain_front m (change_of change.entry) live) }
        ensures number { result ≡ None → self.now.view.number < 2 ^ 62 }
    {
        match store.mode {
            Mode::Tx => return Some(WriteFault::Mode),
            Mode::Plain => {}
        }
        let most = longest_value(self.sizes.slot_size);
        if let Some(fault) = change_fault(most, store.prefix, change) {
            return Some(fault);
        }
        if self.is_broken {
            return Some(WriteFault::Broken);
        }
        if self.view.number() >= GREATEST_NUMBER {
            return Some(WriteFault::Spent);
        }
        None
    }

    /// Makes a write of a store an event, where a segment, and what is left of the active one, has
    /// room for it.
    fn log_write(
        &mut self,
        alloc: Global,
        store: StoreId,
        change: ChangeRef<'_>,
    ) -> Result<u64, WriteFault>
        requires { self.old.view.number < 2 ^ 62 }
        ensures { (m : Core) (live : a_store) → IsSound m → Serves R.RowSet self.old m → live.id ≡ store.0
            → IsLoggedWrite R.RowSet m (change_of change.entry) live result self.new }
    {
        locks_stand_after_moves();
        commits_happen::<R>();
        conflicts_are_of_transactions();
        let _last = self.view.number();
        let Ok(writes) = one_write(alloc, store, change) else {
            return Err(WriteFault::NoMemory);
        };
        let charge = writes.charge();
        let room = self.room();
        if charge > room {
            return Err(WriteFault::TxnSize(charge, room));
        }
        let left = self.left();
        if charge > left {
            return Err(WriteFault::LogFull(charge, left));
        }
        match self.log(alloc, &writes) {
            Ok(number) => Ok(number),
            Err(_) => Err(WriteFault::NoMemory),
        }
    }

    /// A write of a `plain` store, which is a commit of its own, and its number. `NoStore` comes exactly
    /// where no live store has the name, `Mode` where it is a `tx` store, a length where it is outside
    /// the limits, `Broken` where the engine is broken, `Spent` where the last number is 2^62, `TxnSize`
    /// where the commit takes more than a segment has room for, and `LogFull` where it takes more than
    /// the segment has left, with what it takes and the room: the first of these that is so. After a
    /// fault all is as before.
    pub fn write_plain(
        &mut self,
        alloc: Global,
        store: &StoreName,
        change: ChangeRef<'_>,
    ) -> Result<u64, WriteFault>
        ensures { (m : Core) → IsSound m → Serves R.RowSet self.old m
            → Steps R.RowSet answer.ok SaysWrite m
            (call.write_by call.outside store.now (change_of change.entry)) result self.new }
    {
        let Some(found) = self.view.store(store) else {
            return Err(WriteFault::NoStore);
        };
        if let Some(fault) = self.plain_fault(found, change) {
            return Err(fault);
        }
        let id = found.id;
        self.log_write(alloc, id, change)
    }
}
