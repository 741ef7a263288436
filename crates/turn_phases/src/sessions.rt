//! Sessions, whatever turn is out.
ghost use Rattle.std.specs.Prelude.{◌≡◌, IfOk, OnErr};
ghost use Rattle.hse_rows.specs.writes.Change.{change_of};
ghost use Rattle.hse_rows.specs.transactions.Transaction as machine;
ghost use Rattle.hse_rows.specs.transactions.Transaction.{Transaction};
ghost use Rattle.hse_rows.specs.machine.Calls as call;
ghost use Rattle.hse_rows.specs.machine.Core.{Core};
ghost use Rattle.hse_rows.specs.machine.CoreDone.{done};
ghost use Rattle.hse_rows.specs.machine.Replies as answer;
ghost use Rattle.engine_state.specs.Serves.{IsTxnOf};
ghost use Rattle.engine_state.specs.Inside.{IsWritten};
ghost use Rattle.engine_state.specs.Says.{SaysBegin, SaysCommit, SaysEnded, SaysFull, SaysWrite};
ghost use Rattle.kvdb.specs.Serves.{of_sets};
ghost use Rattle.turn_phases.specs.Devices.{device_of};
ghost use Rattle.turn_phases.specs.Serves.{PhasesServe};
ghost use Rattle.turn_phases.specs.Steps.{Steps};

use crate::phases::TurnPhases;
use engine_state::{
    BeginFault, CommitFault, CursorPlace, CursorsFull, WriteFault, steps_keep_states_sound,
};
use hse_rows::{ChangeRef, StoreName};
use kvset::Kvset;
use media_disk::Disk;
use std::alloc::Global;
use transactions::Txn;
use view::TxnState;

impl<D: Disk> TurnPhases<D> {
    /// An active transaction over the present state, as `Kvdb::begin` says. A turn that is out stays out.
    pub fn begin(&mut self, alloc: Global) -> Result<Txn<Kvset>, BeginFault>
        ensures step { (m : Core) → PhasesServe D.Device self.old m
            → Steps D.Device (λ txn. answer.ok txn.view.number) SaysBegin m call.begin result self.new }
        ensures txn { (m : Core) → PhasesServe D.Device self.old m
            → IfOk result (λ txn. IsTxnOf of_sets txn (done m call.begin).timeline
            (machine.begins self.old.db.state.begins self.old.db.state.view.number)) }
        ensures device { device_of self.new ≡ device_of self.old }
        ensures moment { self.new.db.moment ≡ self.old.db.moment }
    {
        steps_keep_states_sound();
        self.db.begin(alloc)
    }

    /// A write in a transaction, as `Kvdb::write` says. A turn that is out stays out.
    pub fn write(
        &mut self,
        alloc: Global,
        txn: &mut Txn<Kvset>,
        store: &StoreName,
        change: ChangeRef<'_>,
    ) -> Result<(), WriteFault>
        ensures step { (m : Core) (transaction : Transaction) → PhasesServe D.Device self.old m
            → IsTxnOf of_sets txn.old m.timeline transaction
            → Steps D.Device (λ _. answer.accepted) SaysWrite m
            (call.write_by (call.inside txn.old.id) store.now (change_of change.entry)) result self.new }
        ensures txn { (m : Core) (transaction : Transaction) → PhasesServe D.Device self.old m
            → IsTxnOf of_sets txn.old m.timeline transaction
            → IfOk result (λ _. IsWritten of_sets m (change_of change.entry) store.now transaction txn.old txn.new) }
        ensures same { OnErr result (txn.new ≡ txn.old) }
        ensures device { device_of self.new ≡ device_of self.old }
        ensures moment { self.new.db.moment ≡ self.old.db.moment }
    {
        steps_keep_states_sound();
        self.db.write(alloc, txn, store, change)
    }

    /// A write of a `plain` store, which is a commit of its own, as `Kvdb::write_plain` says. A turn that
    /// is out stays out, and does not carry it.
    pub fn write_plain(
        &mut self,
        alloc: Global,
        store: &StoreName,
        change: ChangeRef<'_>,
    ) -> Result<u64, WriteFault>
        ensures step { (m : Core) → PhasesServe D.Device self.old m
            → Steps D.Device answer.ok SaysWrite m
            (call.write_by call.outside store.now (change_of change.entry)) result self.new }
        ensures device { device_of self.new ≡ device_of self.old }
        ensures moment { self.new.db.moment ≡ self.old.db.moment }
    {
        steps_keep_states_sound();
        self.db.write_plain(alloc, store, change)
    }

    /// Makes a transaction's writes an event, as `Kvdb::commit` says. A turn that is out stays out, and
    /// does not carry it.
    pub fn commit(&mut self, alloc: Global, txn: &mut Txn<Kvset>) -> Result<u64, CommitFault>
        ensures step { (m : Core) (transaction : Transaction) → PhasesServe D.Device self.old m
            → IsTxnOf of_sets txn.old m.timeline transaction
            → Steps D.Device answer.ok SaysCommit m (call.commit txn.old.id) result self.new }
        ensures txn { (m : Core) (transaction : Transaction) → PhasesServe D.Device self.old m
            → IsTxnOf of_sets txn.old m.timeline transaction
            → IfOk result (λ number. IsTxnOf of_sets txn.new (done m (call.commit txn.old.id)).timeline
            (machine.ended transaction (machine.committed number))) }
        ensures same { OnErr result (txn.new ≡ txn.old) }
        ensures device { device_of self.new ≡ device_of self.old }
        ensures moment { self.new.db.moment ≡ self.old.db.moment }
    {
        steps_keep_states_sound();
        self.db.commit(alloc, txn)
    }

    /// Ends a transaction without its writes, as `Kvdb::abort` says. It takes no memory.
    pub fn abort(&mut self, txn: &mut Txn<Kvset>) -> Result<(), TxnState>
        ensures step { (m : Core) (transaction : Transaction) → PhasesServe D.Device self.old m
            → IsTxnOf of_sets txn.old m.timeline transaction
            → Steps D.Device (λ _. answer.accepted) SaysEnded m (call.abort txn.old.id) result self.new }
        ensures txn { (m : Core) (transaction : Transaction) → PhasesServe D.Device self.old m
            → IsTxnOf of_sets txn.old m.timeline transaction
            → IfOk result (λ _. IsTxnOf of_sets txn.new (done m (call.abort txn.old.id)).timeline
            (machine.ended transaction machine.aborted)) }
        ensures same { OnErr result (txn.new ≡ txn.old) }
        ensures device { device_of self.new ≡ device_of self.old }
        ensures moment { self.new.db.moment ≡ self.old.db.moment }
    {
        steps_keep_states_sound();
        self.db.abort(txn)
    }

    /// A place for one cursor more. `CursorsFull` comes exactly where 1,024 cursors are open. It takes
    /// no memory.
    pub fn cursor_place(&mut self) -> Result<CursorPlace, CursorsFull>
        ensures step { (m : Core) → PhasesServe D.Device self.old m
            → Steps D.Device (λ _. answer.accepted) SaysFull m call.take_place result self.new }
        ensures device { device_of self.new ≡ device_of self.old }
        ensures moment { self.new.db.moment ≡ self.old.db.moment }
    {
        steps_keep_states_sound();
        self.db.cursor_place()
    }

    /// A cursor is gone. It takes no memory.
    pub fn give_place(&mut self, place: CursorPlace)
        ensures step { (m : Core) → PhasesServe D.Device self.old m
            → PhasesServe D.Device self.new (done m call.give_place) }
        ensures device { device_of self.new ≡ device_of self.old }
        ensures moment { self.new.db.moment ≡ self.old.db.moment }
    {
        steps_keep_states_sound();
        self.db.give_place(place)
    }
}
