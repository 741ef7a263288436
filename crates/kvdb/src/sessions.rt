//! Sessions: transactions and places for cursors.
ghost use Rattle.std.specs.Prelude.{◌≡◌, ◌<◌, Err, IfOk, OnErr};
ghost use Rattle.hse_rows.specs.writes.Change.{change_of};
ghost use Rattle.hse_rows.specs.transactions.Transaction as machine;
ghost use Rattle.hse_rows.specs.transactions.Transaction.{Transaction};
ghost use Rattle.hse_rows.specs.machine.Calls as call;
ghost use Rattle.hse_rows.specs.machine.Core.{Core};
ghost use Rattle.hse_rows.specs.machine.CoreDone.{done};
ghost use Rattle.hse_rows.specs.machine.Replies as answer;
ghost use Rattle.view.specs.declared.get_fault.TxnState.TheVariants as ended;
ghost use Rattle.engine_state.specs.declared.faults.WriteFault.TheVariants as fault;
ghost use Rattle.engine_state.specs.Serves.{IsSound, IsTxnOf};
ghost use Rattle.engine_state.specs.Inside.{IsWritten};
ghost use Rattle.engine_state.specs.Says.{SaysBegin, SaysCommit, SaysEnded, SaysFull, SaysWrite};
ghost use Rattle.kvdb.specs.Serves.{of_sets, Serves};
ghost use Rattle.kvdb.specs.Steps.{Steps};

use crate::engine::Kvdb;
use engine_state::{BeginFault, CommitFault, CursorPlace, CursorsFull, WriteFault};
use hse_rows::{ChangeRef, StoreName, normal_forms_are_in_order};
use kvset::Kvset;
use media_disk::Disk;
use std::alloc::Global;
use transactions::Txn;
use view::TxnState;

impl<D: Disk> Kvdb<D> {
    /// An active transaction over the present state. Its begin order is the count of begins since the
    /// opening. `TooMany` comes exactly where 1,024 transactions are live, else `Spent` exactly where
    /// the last number, or the count of begins, is 2^62. After a fault all is as before.
    pub fn begin(&mut self, alloc: Global) -> Result<Txn<Kvset>, BeginFault>
        ensures step { (m : Core) → IsSound m → Serves D.Device self.old m
            → Steps D.Device (λ txn. answer.ok txn.view.number) SaysBegin m call.begin result self.new }
        ensures txn { (m : Core) → IsSound m → Serves D.Device self.old m
            → IfOk result (λ txn. IsTxnOf of_sets txn (done m call.begin).timeline
            (machine.begins self.old.state.begins self.old.state.view.number)) }
        ensures side { self.new.side ≡ self.old.side }
        ensures moment { self.new.moment ≡ self.old.moment }
    {
        self.state.begin(alloc)
    }

    /// A write in a transaction, of a `tx` store of its snapshot that is still live. `NotActive` comes
    /// exactly where it has ended, `NoStore` where its snapshot has no store of the name or the store is
    /// dropped, `Mode` where it is a `plain` store, a length where it is outside the limits, `Broken`
    /// where the engine is broken, `TxnSize` where a commit of all its writes would take more than a
    /// segment has room for, `Held` where other live transactions have a write that overlaps, with the
    /// first begun of them, and `Since` where commits after the snapshot have one, with the first of
    /// them: the first of these that is so. After a fault engine and transaction are as before.
    ///
    /// An active transaction over a snapshot whose later commits are forgotten is none of this engine's,
    /// and is taken as one that was aborted. Of the engine's own there is none.
    pub fn write(
        &mut self,
        alloc: Global,
        txn: &mut Txn<Kvset>,
        store: &StoreName,
        change: ChangeRef<'_>,
    ) -> Result<(), WriteFault>
        ensures step { (m : Core) (transaction : Transaction) → IsSound m → Serves D.Device self.old m
            → IsTxnOf of_sets txn.old m.timeline transaction
            → Steps D.Device (λ _. answer.accepted) SaysWrite m
            (call.write_by (call.inside txn.old.id) store.now (change_of change.entry)) result self.new }
        ensures txn { (m : Core) (transaction : Transaction) → Serves D.Device self.old m
            → IsTxnOf of_sets txn.old m.timeline transaction
            → IfOk result (λ _. IsWritten of_sets m (change_of change.entry) store.now transaction txn.old txn.new) }
        ensures same { OnErr result (txn.new ≡ txn.old) }
        ensures side { self.new.side ≡ self.old.side }
        ensures moment { self.new.moment ≡ self.old.moment }
        ensures forgotten { txn.old.state ≡ ended.Active → txn.old.view.number < self.old.state.locks.least
            → (result ≡ Err (fault.NotActive ended.Aborted)) × (self.new ≡ self.old) }
    {
        self.state.write(alloc, txn, store, change)
    }

    /// A write of a `plain` store, which is a commit of its own, and its number. `NoStore` comes exactly
    /// where no live store has the name, `Mode` where it is a `tx` store, a length where it is outside
    /// the limits, `Broken` where the engine is broken, `Spent` where the last number is 2^62, `TxnSize`
    /// where the commit takes more than a segment has room for, and `LogFull` where it takes more than
    /// the segment has left, with what it takes and the room: the first of these that is so. After a
    /// fault all is as before.
    pub fn write_plain(
        &mut self,
        alloc: Global,
        store: &StoreName,
        change: ChangeRef<'_>,
    ) -> Result<u64, WriteFault>
        ensures step { (m : Core) → IsSound m → Serves D.Device self.old m
            → Steps D.Device answer.ok SaysWrite m
            (call.write_by call.outside store.now (change_of change.entry)) result self.new }
        ensures side { self.new.side ≡ self.old.side }
        ensures moment { self.new.moment ≡ self.old.moment }
    {
        normal_forms_are_in_order();
        self.state.write_plain(alloc, store, change)
    }

    /// Makes a transaction's writes an event, whose number it answers; where it made none there is no
    /// event, and the answer is the snapshot's number. `NotActive` comes exactly where it has ended.
    /// Where it made writes, `Broken` comes exactly where the engine is broken, else `Spent` exactly
    /// where the last number is 2^62, else `LogFull` exactly where the segment has less room left than
    /// the commit takes, with both. After a fault engine and transaction are as before.
    ///
    /// This is promised of a transaction that this engine began since its last opening. Of another one,
    /// whose life ended without its writes, nothing is: do not commit it.
    pub fn commit(&mut self, alloc: Global, txn: &mut Txn<Kvset>) -> Result<u64, CommitFault>
        ensures step { (m : Core) (transaction : Transaction) → IsSound m → Serves D.Device self.old m
            → IsTxnOf of_sets txn.old m.timeline transaction
            → Steps D.Device answer.ok SaysCommit m (call.commit txn.old.id) result self.new }
        ensures txn { (m : Core) (transaction : Transaction) → IsSound m → Serves D.Device self.old m
            → IsTxnOf of_sets txn.old m.timeline transaction
            → IfOk result (λ number. IsTxnOf of_sets txn.new (done m (call.commit txn.old.id)).timeline
            (machine.ended transaction (machine.committed number))) }
        ensures same { OnErr result (txn.new ≡ txn.old) }
        ensures side { self.new.side ≡ self.old.side }
        ensures moment { self.new.moment ≡ self.old.moment }
    {
        normal_forms_are_in_order();
        self.state.commit(alloc, txn)
    }

    /// Ends a transaction without its writes. A fault says how it ended before, and comes exactly where
    /// it did; then the transaction is as before. It takes no memory.
    ///
    /// This is promised of a transaction that this engine began since its last opening. One of an
    /// earlier life has ended with it, and may be dropped as it is.
    pub fn abort(&mut self, txn: &mut Txn<Kvset>) -> Result<(), TxnState>
        ensures step { (m : Core) (transaction : Transaction) → IsSound m → Serves D.Device self.old m
            → IsTxnOf of_sets txn.old m.timeline transaction
            → Steps D.Device (λ _. answer.accepted) SaysEnded m (call.abort txn.old.id) result self.new }
        ensures txn { (m : Core) (transaction : Transaction) → IsSound m → Serves D.Device self.old m
            → IsTxnOf of_sets txn.old m.timeline transaction
            → IfOk result (λ _. IsTxnOf of_sets txn.new (done m (call.abort txn.old.id)).timeline
            (machine.ended transaction machine.aborted)) }
        ensures same { OnErr result (txn.new ≡ txn.old) }
        ensures side { self.new.side ≡ self.old.side }
        ensures moment { self.new.moment ≡ self.old.moment }
    {
        self.state.abort(txn)
    }

    /// A place for one cursor more. `CursorsFull` comes exactly where 1,024 cursors are open. It takes
    /// no memory.
    pub fn cursor_place(&mut self) -> Result<CursorPlace, CursorsFull>
        ensures step { (m : Core) → IsSound m → Serves D.Device self.old m
            → Steps D.Device (λ _. answer.accepted) SaysFull m call.take_place result self.new }
        ensures side { self.new.side ≡ self.old.side }
        ensures moment { self.new.moment ≡ self.old.moment }
    {
        self.state.cursor_place()
    }

    /// A cursor is gone. It takes no memory.
    ///
    /// This is promised of a place that this engine gave since its last opening, which has taken all
    /// earlier ones back.
    pub fn give_place(&mut self, place: CursorPlace)
        ensures step { (m : Core) → IsSound m → Serves D.Device self.old m
            → Serves D.Device self.new (done m call.give_place) }
        ensures side { self.new.side ≡ self.old.side }
        ensures moment { self.new.moment ≡ self.old.moment }
    {
        self.state.give_place(place)
    }
}
