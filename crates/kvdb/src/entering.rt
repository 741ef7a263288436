//! The turns of creations and drops are taken.
ghost use Rattle.std.specs.Prelude.{◌≡◌, ◌≤◌, ◌^◌, ℕ, IfOk, OnErr, Option};
ghost use Rattle.hse_rows.specs.machine.Core.{Core};
ghost use Rattle.hse_rows.specs.machine.Replies.{Refusal};
ghost use Rattle.hse_rows.specs.machine.Turn as machine;
ghost use Rattle.engine_state.specs.Serves.{IsSound};
ghost use Rattle.engine_state.specs.Stores.{SaysCreate, SaysDrop};
ghost use Rattle.manifest.specs.Entries.{entry_as};
ghost use Rattle.kvdb.specs.Entering.{Enters};
ghost use Rattle.kvdb.specs.Says.{SaysTurn};
ghost use Rattle.kvdb.specs.Serves.{Serves};
ghost use Rattle.kvdb.specs.Taking.{Takes};
ghost use Rattle.kvdb.specs.declared.side.Side.TheVariants as side;

use crate::bases::base_after;
use crate::engine::Kvdb;
use crate::opening::log_start_of;
use crate::side::{Side, TurnKind};
use crate::turn::{Turn, TurnFault};
use back::{
    loaded_metadata_may_be_bases, manifests_gain_as_the_machine_counts,
    plans_are_as_the_machine_counts, turns_count_their_events, turns_store_the_next_states,
};
use engine_state::{CreateFault, DropFault, StoreEvent};
use hse_rows::{Mode, StoreName};
use kvset::Kvset;
use manifest::{Entry, entries_are_as_the_machine_counts};
use media_disk::Disk;
use std::alloc::Global;
use std::mem::replace;
use wal::commits_are_a_payload;

/// The fault of a turn for a creation that was refused.
fn creation_fault(fault: CreateFault) -> TurnFault
    ensures { (refusal : Option (Refusal ℕ)) → SaysCreate fault refusal → SaysTurn result refusal }
{
    match fault {
        CreateFault::StoreExists => TurnFault::StoreExists,
        CreateFault::PrefixLength(given) => TurnFault::PrefixLength(given),
        CreateFault::Broken => TurnFault::Broken,
        CreateFault::TooMany(most) => TurnFault::TooMany(most),
        CreateFault::Spent => TurnFault::Spent,
        CreateFault::NoMemory => TurnFault::NoMemory,
    }
}

/// The fault of a turn for a drop that was refused.
fn drop_fault(fault: DropFault) -> TurnFault
    ensures { (refusal : Option (Refusal ℕ)) → SaysDrop fault refusal → SaysTurn result refusal }
{
    match fault {
        DropFault::NoStore => TurnFault::NoStore,
        DropFault::Broken => TurnFault::Broken,
        DropFault::StoreHeld(order) => TurnFault::StoreHeld(order),
        DropFault::Spent => TurnFault::Spent,
        DropFault::NoMemory => TurnFault::NoMemory,
    }
}

impl<D: Disk> Kvdb<D> {
    /// Takes the turn of an event that was prepared, with the manifest's entry for it. All memory is taken
    /// before anything changes.
    fn take_entry(
        &mut self,
        alloc: Global,
        kind: TurnKind,
        entry: &Entry,
        event: StoreEvent<Kvset>,
    ) -> Result<Turn<D>, TurnFault>
        requires { event.view.number ≤ 2 ^ 62 }
        ensures takes { (m : Core) (what : machine.TurnWish) → IsSound m
            → Serves D.Device self.old m → Enters m what kind (entry_as entry.now) event
            → Takes D.Device m what result self.new }
        ensures given { IfOk result (λ turn. self.old.side ≡ side.In turn.back) }
        ensures out { IfOk result (λ turn. self.new.side ≡ side.Out turn.kind turn.number) }
        ensures kept { OnErr result (self.new.side ≡ self.old.side) }
        ensures moment { self.new.moment ≡ self.old.moment }
    {
        commits_are_a_payload();
        entries_are_as_the_machine_counts();
        turns_store_the_next_states();
        turns_count_their_events();
        manifests_gain_as_the_machine_counts();
        plans_are_as_the_machine_counts();
        loaded_metadata_may_be_bases();
        let number = event.number();
        let Ok(base) = base_after(alloc, &self.log_start, event.view(), number) else {
            return Err(TurnFault::NoMemory);
        };
        let plan = match self.plan_of(alloc, entry, &base) {
            Ok(plan) => plan,
            Err(fault) => return Err(fault),
        };
        let Ok(batch) = self.state.take_waiting(alloc) else {
            return Err(TurnFault::NoMemory);
        };
        self.state.enter(event);
        self.log_start = log_start_of(base);
        match replace(&mut self.side, Side::Out(kind, number)) {
            Side::In(back) => Ok(Turn {
                back,
                kind,
                number,
                batch,
                plan: Some(plan),
            }),
            Side::Out(_, _) => unreachable!(),
        }
    }

    /// Takes the turn of a creation.
    pub(crate) fn take_create(
        &mut self,
        alloc: Global,
        name: &StoreName,
        mode: Mode,
        prefix: u8,
    ) -> Result<Turn<D>, TurnFault>
        ensures takes { (m : Core) → IsSound m → Serves D.Device self.old m
            → Takes D.Device m (machine.create name.now mode prefix) result self.new }
        ensures given { IfOk result (λ turn. self.old.side ≡ side.In turn.back) }
        ensures out { IfOk result (λ turn. self.new.side ≡ side.Out turn.kind turn.number) }
        ensures kept { OnErr result (self.new.side ≡ self.old.side) }
        ensures moment { self.new.moment ≡ self.old.moment }
    {
        let event = match self.state.prepare_create(alloc, name, mode, prefix as u64) {
            Ok(event) => event,
            Err(fault) => return Err(creation_fault(fault)),
        };
        let _bytes = name.bytes();
        let Ok(text) = name.share(alloc) else {
            return Err(TurnFault::NoMemory);
        };
        let entry = Entry::Create(event.number(), text, mode, prefix);
        self.take_entry(alloc, TurnKind::Create, &entry, event)
    }

    /// Takes the turn of a drop.
    pub(crate) fn take_drop(
        &mut self,
        alloc: Global,
        name: &StoreName,
    ) -> Result<Turn<D>, TurnFault>
        ensures takes { (m : Core) → IsSound m → Serves D.Device self.old m
            → Takes D.Device m (machine.drop name.now) result self.new }
        ensures given { IfOk result (λ turn. self.old.side ≡ side.In turn.back) }
        ensures out { IfOk result (λ turn. self.new.side ≡ side.Out turn.kind turn.number) }
        ensures kept { OnErr result (self.new.side ≡ self.old.side) }
        ensures moment { self.new.moment ≡ self.old.moment }
    {
        let event = match self.state.prepare_drop(alloc, name) {
            Ok(event) => event,
            Err(fault) => return Err(drop_fault(fault)),
        };
        let entry = Entry::Drop(event.number(), event.store());
        self.take_entry(alloc, TurnKind::Drop, &entry, event)
    }
}
