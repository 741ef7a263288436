//! The end of a transaction without an event.
ghost use Rattle.std.specs.Prelude.{◌≡◌, ◌==◌, [], not, length, OnErr, IfOk};
ghost use Rattle.std.specs.List.{filter};
ghost use Rattle.std.specs.List.Sorted.{IsBinarySearchResult, IsSearchInRange};
ghost use Rattle.std.specs.Ordering.{nat_cmp};
ghost use Rattle.hse_rows.specs.declared.row.Row.{Row as a_row};
ghost use Rattle.hse_rows.specs.transactions.Moves as moves;
ghost use Rattle.hse_rows.specs.transactions.Transaction.{Transaction, active, aborted, ended};
ghost use Rattle.hse_rows.specs.machine.Calls as call;
ghost use Rattle.hse_rows.specs.machine.Core.{Core, with_move};
ghost use Rattle.hse_rows.specs.machine.CoreDone.{done};
ghost use Rattle.hse_rows.specs.machine.Replies as answer;
ghost use Rattle.transactions.specs.Txns.{with_state};
ghost use Rattle.engine_state.specs.Kept.{AreInOrder, least_of};
ghost use Rattle.engine_state.specs.Serves.{IsSound, Serves, IsTxnOf};
ghost use Rattle.engine_state.specs.Says.{SaysEnded};
ghost use Rattle.engine_state.specs.Steps.{Steps};

use crate::live::LiveTxn;
use crate::state::EngineState;
use hse_rows::Shared;
use key_locks::{locks_stand_after_ends, locks_stand_as_before};
use transactions::{Txn, transactions_stand};
use view::TxnState;

/// Where the live transaction of this begin order stands, or else where it would.
fn place_of(live: &[LiveTxn], order: u64) -> Result<usize, usize>
    ensures bound { IsSearchInRange result (length live.now) }
    ensures position { IsBinarySearchResult (λ txn. nat_cmp txn.order order) live.now result }
{
    live.binary_search_by(|txn| txn.order.cmp(&order))
}

/// The transaction of this begin order is live no more, where begin orders rise.
pub(crate) fn leave(live: &mut Vec<LiveTxn>, order: u64)
    ensures { AreInOrder 0 live.old.items
        → live.new.items ≡ filter (λ txn. not (txn.order == order)) live.old.items }
{
    if let Ok(at) = place_of(live, order) {
        live.remove(at);
    }
}

/// The number from which on live transactions ask for commits: the snapshot of the first of them, and
/// where there is none the last number.
pub(crate) fn least_of(live: &[LiveTxn], number: u64) -> u64
    ensures { result ≡ least_of number live.now }
{
    match live.first() {
        Some(txn) => txn.snapshot,
        None => number,
    }
}

impl<R: Shared> EngineState<R> {
    /// An active transaction ends without an event: its locks are gone, and what no live transaction
    /// asks for is forgotten.
    pub(crate) fn release(&mut self, txn: &mut Txn<R>, ended: TxnState)
        ensures aborts { (m : Core) (transaction : Transaction) → IsSound m → Serves R.RowSet self.old m
            → IsTxnOf R.RowSet txn.old m.timeline transaction → transaction.state ≡ active
            → Serves R.RowSet self.new (with_move m (moves.abort txn.old.id)) }
        ensures commits { (m : Core) (transaction : Transaction) → IsSound m → Serves R.RowSet self.old m
            → IsTxnOf R.RowSet txn.old m.timeline transaction → transaction.state ≡ active → transaction.writes ≡ []
            → Serves R.RowSet self.new (with_move m (moves.commit txn.old.id)) }
        ensures txn { txn.new ≡ with_state txn.old ended }
    {
        locks_stand_after_ends();
        locks_stand_as_before();
        let order = txn.id();
        self.locks.release(order);
        leave(&mut self.live, order);
        let least = least_of(&self.live, self.view.number());
        self.locks.prune(least);
        txn.end(ended);
    }

    /// Ends a transaction without its writes. A fault says how it ended before, and comes exactly where
    /// it did; then the transaction is as before. It takes no memory.
    ///
    /// This is promised of a transaction that this state began since its opening.
    pub fn abort(&mut self, txn: &mut Txn<R>) -> Result<(), TxnState>
        ensures step { (m : Core) (transaction : Transaction) → IsSound m → Serves R.RowSet self.old m
            → IsTxnOf R.RowSet txn.old m.timeline transaction
            → Steps R.RowSet (λ _. answer.accepted) SaysEnded m (call.abort txn.old.id) result self.new }
        ensures txn { (m : Core) (transaction : Transaction) → IsSound m → Serves R.RowSet self.old m
            → IsTxnOf R.RowSet txn.old m.timeline transaction
            → IfOk result (λ _. IsTxnOf R.RowSet txn.new (done m (call.abort txn.old.id)).timeline
            (ended transaction aborted)) }
        ensures same { OnErr result (txn.new ≡ txn.old) }
    {
        transactions_stand::<R>();
        match txn.state() {
            TxnState::Active => {
                self.release(txn, TxnState::Aborted);
                Ok(())
            }
            TxnState::Committed => Err(TxnState::Committed),
            TxnState::Aborted => Err(TxnState::Aborted),
        }
    }
}
