//! Sessions, over the lives of a run.
ghost use Rattle.std.specs.Prelude.{◌≡◌, IfOk, OnErr};
ghost use Rattle.hse_rows.specs.writes.Change.{change_of};
ghost use Rattle.hse_rows.specs.transactions.Transaction as machine;
ghost use Rattle.hse_rows.specs.transactions.Transaction.{Transaction};
ghost use Rattle.hse_rows.specs.machine.Calls as call;
ghost use Rattle.hse_rows.specs.machine.CoreDone.{done};
ghost use Rattle.hse_rows.specs.machine.Replies as answer;
ghost use Rattle.engine_state.specs.Serves.{IsTxnOf};
ghost use Rattle.engine_state.specs.Inside.{IsWritten};
ghost use Rattle.engine_state.specs.Says.{SaysBegin, SaysCommit, SaysEnded, SaysFull, SaysWrite};
ghost use Rattle.kvdb.specs.Serves.{of_sets};
ghost use Rattle.turn_phases.specs.Devices.{device_of};
ghost use Rattle.lives.specs.Serves.{LivesServe};
ghost use Rattle.lives.specs.Steps.{Steps};
ghost use Rattle.lives.specs.Stories.{Story, stepped};

use crate::run::Lives;
use engine_state::{BeginFault, CommitFault, CursorPlace, CursorsFull, WriteFault};
use hse_rows::{ChangeRef, StoreName};
use kvset::Kvset;
use media_disk::Disk;
use std::alloc::Global;
use transactions::Txn;
use view::TxnState;

impl<D: Disk> Lives<D> {
    /// An active transaction over the present state, as `TurnPhases::begin` says. The device and the marks
    /// stay.
    pub fn begin(&mut self, alloc: Global) -> Result<Txn<Kvset>, BeginFault>
        ensures step { (s : Story) → LivesServe D.Device self.old s
            → Steps D.Device (λ txn. answer.ok txn.view.number) SaysBegin s call.begin result self.new }
        ensures txn { (s : Story) → LivesServe D.Device self.old s
            → IfOk result (λ txn. IsTxnOf of_sets txn (done s.machine call.begin).timeline
            (machine.begins self.old.phases.db.state.begins self.old.phases.db.state.view.number)) }
        ensures device { device_of self.new.phases ≡ device_of self.old.phases }
    {
        self.phases.begin(alloc)
    }

    /// A write in a transaction, as `TurnPhases::write` says. The device and the marks stay.
    pub fn write(
        &mut self,
        alloc: Global,
        txn: &mut Txn<Kvset>,
        store: &StoreName,
        change: ChangeRef<'_>,
    ) -> Result<(), WriteFault>
        ensures step { (s : Story) (transaction : Transaction) → LivesServe D.Device self.old s
            → IsTxnOf of_sets txn.old s.machine.timeline transaction
            → Steps D.Device (λ _. answer.accepted) SaysWrite s
            (call.write_by (call.inside txn.old.id) store.now (change_of change.entry)) result self.new }
        ensures txn { (s : Story) (transaction : Transaction) → LivesServe D.Device self.old s
            → IsTxnOf of_sets txn.old s.machine.timeline transaction
            → IfOk result (λ _. IsWritten of_sets s.machine (change_of change.entry) store.now transaction
            txn.old txn.new) }
        ensures same { OnErr result (txn.new ≡ txn.old) }
        ensures device { device_of self.new.phases ≡ device_of self.old.phases }
    {
        self.phases.write(alloc, txn, store, change)
    }

    /// A write of a `plain` store, which is a commit of its own, as `TurnPhases::write_plain` says. The
    /// device and the marks stay.
    pub fn write_plain(
        &mut self,
        alloc: Global,
        store: &StoreName,
        change: ChangeRef<'_>,
    ) -> Result<u64, WriteFault>
        ensures step { (s : Story) → LivesServe D.Device self.old s
            → Steps D.Device answer.ok SaysWrite s
            (call.write_by call.outside store.now (change_of change.entry)) result self.new }
        ensures device { device_of self.new.phases ≡ device_of self.old.phases }
    {
        self.phases.write_plain(alloc, store, change)
    }

    /// Makes a transaction's writes an event, as `TurnPhases::commit` says. The device and the marks stay.
    pub fn commit(&mut self, alloc: Global, txn: &mut Txn<Kvset>) -> Result<u64, CommitFault>
        ensures step { (s : Story) (transaction : Transaction) → LivesServe D.Device self.old s
            → IsTxnOf of_sets txn.old s.machine.timeline transaction
            → Steps D.Device answer.ok SaysCommit s (call.commit txn.old.id) result self.new }
        ensures txn { (s : Story) (transaction : Transaction) → LivesServe D.Device self.old s
            → IsTxnOf of_sets txn.old s.machine.timeline transaction
            → IfOk result (λ number. IsTxnOf of_sets txn.new (done s.machine (call.commit txn.old.id)).timeline
            (machine.ended transaction (machine.committed number))) }
        ensures same { OnErr result (txn.new ≡ txn.old) }
        ensures device { device_of self.new.phases ≡ device_of self.old.phases }
    {
        self.phases.commit(alloc, txn)
    }

    /// Ends a transaction without its writes, as `TurnPhases::abort` says. It takes no memory.
    pub fn abort(&mut self, txn: &mut Txn<Kvset>) -> Result<(), TxnState>
        ensures step { (s : Story) (transaction : Transaction) → LivesServe D.Device self.old s
            → IsTxnOf of_sets txn.old s.machine.timeline transaction
            → Steps D.Device (λ _. answer.accepted) SaysEnded s (call.abort txn.old.id) result self.new }
        ensures txn { (s : Story) (transaction : Transaction) → LivesServe D.Device self.old s
            → IsTxnOf of_sets txn.old s.machine.timeline transaction
            → IfOk result (λ _. IsTxnOf of_sets txn.new (done s.machine (call.abort txn.old.id)).timeline
            (machine.ended transaction machine.aborted)) }
        ensures same { OnErr result (txn.new ≡ txn.old) }
        ensures device { device_of self.new.phases ≡ device_of self.old.phases }
    {
        self.phases.abort(txn)
    }

    /// A place for one cursor more. `CursorsFull` comes exactly where 1,024 cursors are open. It takes
    /// no memory.
    pub fn cursor_place(&mut self) -> Result<CursorPlace, CursorsFull>
        ensures step { (s : Story) → LivesServe D.Device self.old s
            → Steps D.Device (λ _. answer.accepted) SaysFull s call.take_place result self.new }
        ensures device { device_of self.new.phases ≡ device_of self.old.phases }
    {
        self.phases.cursor_place()
    }

    /// A cursor is gone. It takes no memory.
    pub fn give_place(&mut self, place: CursorPlace)
        ensures step { (s : Story) → LivesServe D.Device self.old s
            → LivesServe D.Device self.new (stepped s call.give_place) }
        ensures device { device_of self.new.phases ≡ device_of self.old.phases }
    {
        self.phases.give_place(place)
    }
}
