//! Writes in a transaction.
ghost use Rattle.std.specs.Prelude.{◌≡◌, ◌<◌, ◌≤◌, Err, IfOk, OnErr};
ghost use Rattle.hse_rows.specs.declared.store.Mode.TheVariants.{Tx};
ghost use Rattle.hse_rows.specs.states.State.{Store as a_store};
ghost use Rattle.hse_rows.specs.writes.Change.{change_of, write_of};
ghost use Rattle.hse_rows.specs.transactions.Transaction.{Transaction, active};
ghost use Rattle.hse_rows.specs.transactions.Timeline.{HasStore, snapshot_of};
ghost use Rattle.hse_rows.specs.machine.Calls as call;
ghost use Rattle.hse_rows.specs.machine.Core.{Core};
ghost use Rattle.hse_rows.specs.machine.Replies as answer;
ghost use Rattle.view.specs.declared.get_fault.TxnState.TheVariants as ended;
ghost use Rattle.engine_state.specs.declared.faults.WriteFault.TheVariants as fault;
ghost use Rattle.engine_state.specs.Serves.{IsSound, Serves, IsTxnOf};
ghost use Rattle.engine_state.specs.Says.{SaysWrite, Fronts};
ghost use Rattle.engine_state.specs.Steps.{Steps};
ghost use Rattle.engine_state.specs.Inside.{inside_front, IsStaged, WasKept, IsWritten};

use crate::faults::WriteFault;
use crate::layers::change_with;
use crate::lengths::change_fault;
use crate::state::EngineState;
use hse_rows::{ChangeRef, Mode, Shared, StoreId, StoreName, longest_value};
use key_locks::{
    LockFault, locks_answer_the_conflict, locks_stand_after_moves, locks_stand_as_before,
};
use std::alloc::Global;
use transactions::{Txn, transactions_stand};
use view::{TxnState, ViewStore};

impl<R: Shared> EngineState<R> {
    /// Why a store of a snapshot takes no such write in a transaction.
    fn inside_fault(&self, store: &ViewStore<R>, change: ChangeRef<'_>) -> Option<WriteFault>
        ensures { (m : Core) (there : a_store) → Serves R.RowSet self.now m
            → there.id ≡ store.now.id.0 → there.mode ≡ store.now.mode → there.prefix_length ≡ store.now.prefix
            → Fronts result (inside_front m (change_of change.entry) there) }
    {
        let Some(_) = self.view.store_of(store.id) else {
            return Some(WriteFault::NoStore);
        };
        match store.mode {
            Mode::Plain => return Some(WriteFault::Mode),
            Mode::Tx => {}
        }
        let most = longest_value(self.sizes.slot_size);
        if let Some(fault) = change_fault(most, store.prefix, change) {
            return Some(fault);
        }
        if self.is_broken {
            return Some(WriteFault::Broken);
        }
        None
    }

    /// Puts a write behind those of an active transaction, where its commit would have room in a
    /// segment and nothing cancels the write.
    fn stage(
        &mut self,
        alloc: Global,
        txn: &mut Txn<R>,
        store: StoreId,
        change: ChangeRef<'_>,
    ) -> Result<(), WriteFault>
        requires { self.old.locks.least ≤ txn.old.view.number }
        ensures step { (m : Core) (transaction : Transaction) (there : a_store) → IsSound m
            → Serves R.RowSet self.old m → IsTxnOf R.RowSet txn.old m.timeline transaction
            → transaction.state ≡ active → there.id ≡ store.0
            → HasStore (snapshot_of m.timeline transaction) store.0 Tx
            → IsStaged R.RowSet m (change_of change.entry) txn.old.id transaction there result self.new }
        ensures txn { IfOk result (λ _. WasKept txn.old (write_of store (change_of change.entry)) txn.new) }
        ensures same { OnErr result (txn.new ≡ txn.old) }
    {
        locks_answer_the_conflict();
        locks_stand_after_moves();
        locks_stand_as_before();
        transactions_stand::<R>();
        let Ok(change) = change_with(alloc, change) else {
            return Err(WriteFault::NoMemory);
        };
        let Ok(staged) = txn.stage(alloc, store, &change) else {
            return Err(WriteFault::NoMemory);
        };
        let charge = staged.charge();
        let room = self.room();
        if charge > room {
            return Err(WriteFault::TxnSize(charge, room));
        }
        match self
            .locks
            .try_lock(alloc, txn.id(), txn.snapshot(), store, &change)
        {
            Ok(()) => {
                txn.keep(staged);
                Ok(())
            }
            Err(LockFault::Held(order)) => Err(WriteFault::Held(order)),
            Err(LockFault::Since(number)) => Err(WriteFault::Since(number)),
            Err(LockFault::NoMemory) => Err(WriteFault::NoMemory),
        }
    }

    /// A write in an active transaction.
    fn write_active(
        &mut self,
        alloc: Global,
        txn: &mut Txn<R>,
        store: &StoreName,
        change: ChangeRef<'_>,
    ) -> Result<(), WriteFault>
        requires { self.old.locks.least ≤ txn.old.view.number }
        ensures step { (m : Core) (transaction : Transaction) → IsSound m → Serves R.RowSet self.old m
            → IsTxnOf R.RowSet txn.old m.timeline transaction → transaction.state ≡ active
            → Steps R.RowSet (λ _. answer.accepted) SaysWrite m
            (call.write_by (call.inside txn.old.id) store.now (change_of change.entry)) result self.new }
        ensures txn { (m : Core) (transaction : Transaction) → Serves R.RowSet self.old m
            → IsTxnOf R.RowSet txn.old m.timeline transaction
            → IfOk result (λ _. IsWritten R.RowSet m (change_of change.entry) store.now transaction txn.old txn.new) }
        ensures same { OnErr result (txn.new ≡ txn.old) }
    {
        transactions_stand::<R>();
        let Some(found) = txn.view().store(store) else {
            return Err(WriteFault::NoStore);
        };
        if let Some(fault) = self.inside_fault(found, change) {
            return Err(fault);
        }
        let id = found.id;
        self.stage(alloc, txn, id, change)
    }

    /// A write in a transaction, of a `tx` store of its snapshot that is still live. `NotActive` comes
    /// exactly where it has ended, `NoStore` where its snapshot has no store of the name or the store is
    /// dropped, `Mode` where it is a `plain` store, a length where it is outside the limits, `Broken`
    /// where the engine is broken, `TxnSize` where a commit of all its writes would take more than a
    /// segment has room for, `Held` where other live transactions have a write that overlaps, with the
    /// first begun of them, and `Since` where commits after the snapshot have one, with the first of
    /// them: the first of these that is so. After a fault engine and transaction are as before.
    ///
    /// An active transaction over a snapshot whose later commits are forgotten is none of this engine's,
    /// and is taken as one that was aborted. Of the engine's own there is none.
    pub fn write(
        &mut self,
        alloc: Global,
        txn: &mut Txn<R>,
        store: &StoreName,
        change: ChangeRef<'_>,
    ) -> Result<(), WriteFault>
        ensures step { (m : Core) (transaction : Transaction) → IsSound m → Serves R.RowSet self.old m
            → IsTxnOf R.RowSet txn.old m.timeline transaction
            → Steps R.RowSet (λ _. answer.accepted) SaysWrite m
            (call.write_by (call.inside txn.old.id) store.now (change_of change.entry)) result self.new }
        ensures txn { (m : Core) (transaction : Transaction) → Serves R.RowSet self.old m
            → IsTxnOf R.RowSet txn.old m.timeline transaction
            → IfOk result (λ _. IsWritten R.RowSet m (change_of change.entry) store.now transaction txn.old txn.new) }
        ensures same { OnErr result (txn.new ≡ txn.old) }
        ensures forgotten { txn.old.state ≡ ended.Active → txn.old.view.number < self.old.locks.least
            → (result ≡ Err (fault.NotActive ended.Aborted)) × (self.new ≡ self.old) }
    {
        match txn.state() {
            TxnState::Active => {
                if !self.locks.remembers(txn.snapshot()) {
                    return Err(WriteFault::NotActive(TxnState::Aborted));
                }
                self.write_active(alloc, txn, store, change)
            }
            TxnState::Committed => Err(WriteFault::NotActive(TxnState::Committed)),
            TxnState::Aborted => Err(WriteFault::NotActive(TxnState::Aborted)),
        }
    }
}
