//! The commit of a transaction.
ghost use Rattle.std.specs.Prelude.{◌≡◌, ◌≢◌, ◌+◌, ◌<◌, ◌≤◌, ◌^◌, [], IfOk, OnErr};
ghost use Rattle.hse_rows.specs.writes.Charge.{charge_of};
ghost use Rattle.hse_rows.specs.transactions.Transaction.{Transaction, active, ended, committed};
ghost use Rattle.hse_rows.specs.machine.Calls as call;
ghost use Rattle.hse_rows.specs.machine.Core.{Core};
ghost use Rattle.hse_rows.specs.machine.CoreDone.{done};
ghost use Rattle.hse_rows.specs.machine.Replies as answer;
ghost use Rattle.transactions.specs.Txns.{with_state};
ghost use Rattle.view.specs.declared.get_fault.TxnState.TheVariants.{Committed};
ghost use Rattle.engine_state.specs.Kept.{left_of};
ghost use Rattle.engine_state.specs.Serves.{IsSound, Serves, IsTxnOf};
ghost use Rattle.engine_state.specs.Says.{SaysCommit};
ghost use Rattle.engine_state.specs.Steps.{Steps};

use crate::ending::{least_of, leave};
use crate::faults::CommitFault;
use crate::limits::GREATEST_NUMBER;
use crate::state::EngineState;
use hse_io::NoMemory;
use hse_rows::{Shared, conflicts_are_of_transactions};
use key_locks::{locks_stand_after_ends, locks_stand_as_before};
use std::alloc::Global;
use transactions::{Txn, transactions_stand};
use view::{TxnState, commits_happen};

impl<R: Shared> EngineState<R> {
    /// Makes an active transaction's writes an event, where the segment has room for it.
    fn log_txn(&mut self, alloc: Global, txn: &mut Txn<R>) -> Result<u64, NoMemory>
        requires number { self.old.view.number < 2 ^ 62 }
        requires room { charge_of txn.old.writes ≤ left_of self.old }
        ensures logged { (m : Core) (transaction : Transaction) → IsSound m → Serves R.RowSet self.old m
            → IsTxnOf R.RowSet txn.old m.timeline transaction → transaction.state ≡ active → transaction.writes ≢ []
            → IfOk result (λ _. Serves R.RowSet self.new (done m (call.commit txn.old.id))) }
        ensures same { (m : Core) → Serves R.RowSet self.old m → OnErr result (Serves R.RowSet self.new m) }
        ensures number { IfOk result (λ number. number ≡ self.old.view.number + 1) }
        ensures txn { IfOk result (λ _. txn.new ≡ with_state txn.old Committed) }
        ensures unchanged { OnErr result (txn.new ≡ txn.old) }
    {
        locks_stand_after_ends();
        locks_stand_as_before();
        commits_happen::<R>();
        conflicts_are_of_transactions();
        let _last = self.view.number();
        let order = txn.id();
        let Ok(()) = self.locks.reserve_commit(order) else {
            return Err(NoMemory);
        };
        let Ok(number) = self.log(alloc, txn.writes()) else {
            return Err(NoMemory);
        };
        self.locks.commit(order, number);
        leave(&mut self.live, order);
        let least = least_of(&self.live, number);
        self.locks.prune(least);
        txn.end(TxnState::Committed);
        Ok(number)
    }

    /// The same with its refusals.
    fn commit_active(&mut self, alloc: Global, txn: &mut Txn<R>) -> Result<u64, CommitFault>
        ensures step { (m : Core) (transaction : Transaction) → IsSound m → Serves R.RowSet self.old m
            → IsTxnOf R.RowSet txn.old m.timeline transaction → transaction.state ≡ active
            → Steps R.RowSet answer.ok SaysCommit m (call.commit txn.old.id) result self.new }
        ensures txn { IfOk result (λ _. txn.new ≡ with_state txn.old Committed) }
        ensures same { OnErr result (txn.new ≡ txn.old) }
    {
        if txn.writes().len() == 0 {
            let snapshot = txn.snapshot();
            self.release(txn, TxnState::Committed);
            return Ok(snapshot);
        }
        if self.is_broken {
            return Err(CommitFault::Broken);
        }
        if self.view.number() >= GREATEST_NUMBER {
            return Err(CommitFault::Spent);
        }
        let charge = txn.writes().charge();
        let left = self.left();
        if charge > left {
            return Err(CommitFault::LogFull(charge, left));
        }
        match self.log_txn(alloc, txn) {
            Ok(number) => Ok(number),
            Err(_) => Err(CommitFault::NoMemory),
        }
    }

    /// Makes a transaction's writes an event, whose number it answers; where it made none there is no
    /// event, and the answer is the snapshot's number. `NotActive` comes exactly where it has ended.
    /// Where it made writes, `Broken` comes exactly where the engine is broken, else `Spent` exactly
    /// where the last number is 2^62, else `LogFull` exactly where the segment has less room left than
    /// the commit takes, with both. After a fault engine and transaction are as before.
    ///
    /// This is promised of a transaction that this state began since its opening.
    pub fn commit(&mut self, alloc: Global, txn: &mut Txn<R>) -> Result<u64, CommitFault>
        ensures step { (m : Core) (transaction : Transaction) → IsSound m → Serves R.RowSet self.old m
            → IsTxnOf R.RowSet txn.old m.timeline transaction
            → Steps R.RowSet answer.ok SaysCommit m (call.commit txn.old.id) result self.new }
        ensures txn { (m : Core) (transaction : Transaction) → IsSound m → Serves R.RowSet self.old m
            → IsTxnOf R.RowSet txn.old m.timeline transaction
            → IfOk result (λ number. IsTxnOf R.RowSet txn.new (done m (call.commit txn.old.id)).timeline
            (ended transaction (committed number))) }
        ensures same { OnErr result (txn.new ≡ txn.old) }
    {
        transactions_stand::<R>();
        match txn.state() {
            TxnState::Active => self.commit_active(alloc, txn),
            TxnState::Committed => Err(CommitFault::NotActive(TxnState::Committed)),
            TxnState::Aborted => Err(CommitFault::NotActive(TxnState::Aborted)),
        }
    }
}
