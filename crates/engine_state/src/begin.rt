//! The begin of a transaction.
ghost use Rattle.std.specs.Prelude.{IfOk};
ghost use Rattle.hse_rows.specs.transactions.Transaction as machine;
ghost use Rattle.hse_rows.specs.machine.Calls as call;
ghost use Rattle.hse_rows.specs.machine.Core.{Core};
ghost use Rattle.hse_rows.specs.machine.CoreDone.{done};
ghost use Rattle.hse_rows.specs.machine.Replies as answer;
ghost use Rattle.engine_state.specs.Serves.{IsSound, Serves, IsTxnOf};
ghost use Rattle.engine_state.specs.Says.{SaysBegin};
ghost use Rattle.engine_state.specs.Steps.{Steps};

use crate::faults::BeginFault;
use crate::limits::{GREATEST_NUMBER, MOST_TRANSACTIONS};
use crate::live::LiveTxn;
use crate::state::EngineState;
use hse_rows::{Shared, snapshots_stay};
use key_locks::locks_stand_after_moves;
use std::alloc::Global;
use transactions::{Txn, transactions_stand};

impl<R: Shared> EngineState<R> {
    /// An active transaction over the present state. Its begin order is the count of begins since the
    /// opening. `TooMany` comes exactly where 1,024 transactions are live, else `Spent` exactly where
    /// the last number, or the count of begins, is 2^62. After a fault all is as before.
    pub fn begin(&mut self, alloc: Global) -> Result<Txn<R>, BeginFault>
        ensures step { (m : Core) → IsSound m → Serves R.RowSet self.old m
            → Steps R.RowSet (λ txn. answer.ok txn.view.number) SaysBegin m call.begin result self.new }
        ensures txn { (m : Core) → IsSound m → Serves R.RowSet self.old m
            → IfOk result (λ txn. IsTxnOf R.RowSet txn (done m call.begin).timeline
            (machine.begins self.old.begins self.old.view.number)) }
    {
        snapshots_stay();
        locks_stand_after_moves();
        transactions_stand::<R>();
        if self.live.len() as u64 >= MOST_TRANSACTIONS {
            return Err(BeginFault::TooMany(MOST_TRANSACTIONS));
        }
        if self.view.number() >= GREATEST_NUMBER {
            return Err(BeginFault::Spent);
        }
        if self.begins >= GREATEST_NUMBER {
            return Err(BeginFault::Spent);
        }
        let Ok(view) = self.view.share(alloc) else {
            return Err(BeginFault::NoMemory);
        };
        let order = self.begins;
        let snapshot = view.number();
        let Ok(()) = self.live.push(LiveTxn { order, snapshot }) else {
            return Err(BeginFault::NoMemory);
        };
        self.begins = order + 1;
        Ok(Txn::begin(alloc, view, order))
    }
}
