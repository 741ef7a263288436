//! Stores that come and go.
ghost use Rattle.std.specs.Prelude.{◌≡◌, ◌+◌, ◌≤◌, ◌<◌, ◌^◌, ℕ, nat_le, nat_lt, length, None, IfOk};
ghost use Rattle.std.specs.List.{find};
ghost use Rattle.hse_rows.specs.writes.Lengths.{longest_prefix};
ghost use Rattle.hse_rows.specs.writes.NormalForm.{same};
ghost use Rattle.hse_rows.specs.states.State.{Store as a_store};
ghost use Rattle.hse_rows.specs.transactions.Moves.{Move};
ghost use Rattle.hse_rows.specs.machine.Core.{Core, number_of, with_move};
ghost use Rattle.engine_state.specs.Serves.{IsSound, Serves, ServesAbove, ViewServes};
ghost use Rattle.engine_state.specs.Stores.{SaysCreate, SaysDrop, create_front, drop_front, FrontsBy};
ghost use Rattle.engine_state.specs.Stores.{Creates, Drops, IsOfStores};

use crate::faults::{CreateFault, DropFault};
use crate::limits::GREATEST_NUMBER;
use crate::state::EngineState;
use crate::store_event::StoreEvent;
use crate::views::{view_created, view_dropped};
use hse_rows::{LONGEST_PREFIX, Mode, Shared, StoreId, StoreName};
use key_locks::{first_holders_tell, locks_stand_after_moves};
use std::alloc::Global;
use view::{ViewStore, stores_come_and_go};

/// Whether prefixes may not be so long.
fn is_long(prefix: u64) -> bool
    ensures { result ≡ nat_lt longest_prefix prefix }
{
    prefix > LONGEST_PREFIX as u64
}

impl<R: Shared> EngineState<R> {
    /// Whether so many stores are live as may be.
    fn has_most(&self) -> bool
        ensures { result ≡ nat_le self.now.sizes.most_stores (length self.now.view.stores) }
    {
        self.view.stores().len() as u64 >= self.sizes.most_stores
    }

    /// Why no store of this name and prefix length is created, but for what the device side says.
    fn create_fault(&self, name: &StoreName, prefix: u64) -> Option<CreateFault>
        ensures front { (m : Core) → Serves R.RowSet self.now m
            → FrontsBy SaysCreate result (create_front m name.now prefix) }
        ensures named { result ≡ None
            → find (λ store. same store.name name.now) self.now.view.stores ≡ None }
        ensures number { result ≡ None → self.now.view.number < 2 ^ 62 }
        ensures prefix { result ≡ None → prefix ≤ 32 }
    {
        if let Some(_) = self.view.store(name) {
            return Some(CreateFault::StoreExists);
        }
        if is_long(prefix) {
            return Some(CreateFault::PrefixLength(prefix));
        }
        if self.is_broken {
            return Some(CreateFault::Broken);
        }
        if self.has_most() {
            return Some(CreateFault::TooMany(self.sizes.most_stores));
        }
        if self.view.number() >= GREATEST_NUMBER {
            return Some(CreateFault::Spent);
        }
        None
    }

    /// Prepares the creation of a store: makes each test but those of the device side, and takes all
    /// memory. Nothing changes. `StoreExists` comes exactly where a live store has the name,
    /// `PrefixLength` where the prefix length is above 32, `Broken` where the engine is broken,
    /// `TooMany` where so many stores are live as may be, and `Spent` where the last number is 2^62:
    /// the first of these that is so.
    pub fn prepare_create(
        &self,
        alloc: Global,
        name: &StoreName,
        mode: Mode,
        prefix: u64,
    ) -> Result<StoreEvent<R>, CreateFault>
        ensures prepared { (m : Core) → IsSound m → Serves R.RowSet self.now m
            → Creates R.RowSet m name.now mode prefix result }
        ensures number { IfOk result (λ event. event.view.number ≡ self.now.view.number + 1) }
        ensures within { IfOk result (λ event. event.view.number ≤ 2 ^ 62) }
        ensures prefix { IfOk result (λ event. prefix ≤ 32) }
    {
        stores_come_and_go::<R>();
        if let Some(fault) = self.create_fault(name, prefix) {
            return Err(fault);
        }
        let _last = self.view.number();
        let Ok(view) = view_created(alloc, &self.view, name, mode, prefix as u8) else {
            return Err(CreateFault::NoMemory);
        };
        let number = view.number();
        let store = StoreId(number);
        Ok(StoreEvent { store, view })
    }

    /// Why a store of the present state is not dropped, but for what the device side says.
    fn drop_fault(&self, store: &ViewStore<R>) -> Option<DropFault>
        ensures front { (m : Core) (there : a_store) → IsSound m → Serves R.RowSet self.now m
            → there.id ≡ store.now.id.0 → FrontsBy SaysDrop result (drop_front m there) }
        ensures number { result ≡ None → self.now.view.number < 2 ^ 62 }
    {
        first_holders_tell();
        if self.is_broken {
            return Some(DropFault::Broken);
        }
        if let Some(order) = self.locks.first_holder(store.id) {
            return Some(DropFault::StoreHeld(order));
        }
        if self.view.number() >= GREATEST_NUMBER {
            return Some(DropFault::Spent);
        }
        None
    }

    /// Prepares the drop of a store: makes each test but those of the device side, and takes all
    /// memory. Nothing changes. `NoStore` comes exactly where no live store has the name, `Broken` where
    /// the engine is broken, `StoreHeld` where live transactions have a write in it, with the first
    /// begun of them, and `Spent` where the last number is 2^62: the first of these that is so.
    pub fn prepare_drop(&self, alloc: Global, name: &StoreName) -> Result<StoreEvent<R>, DropFault>
        ensures prepared { (m : Core) → IsSound m → Serves R.RowSet self.now m
            → Drops R.RowSet m name.now result }
        ensures number { IfOk result (λ event. event.view.number ≡ self.now.view.number + 1) }
        ensures within { IfOk result (λ event. event.view.number ≤ 2 ^ 62) }
    {
        stores_come_and_go::<R>();
        let Some(found) = self.view.store(name) else {
            return Err(DropFault::NoStore);
        };
        if let Some(fault) = self.drop_fault(found) {
            return Err(fault);
        }
        let _last = self.view.number();
        let store = found.id;
        let Ok(view) = view_dropped(alloc, &self.view, store) else {
            return Err(DropFault::NoMemory);
        };
        Ok(StoreEvent { store, view })
    }

    /// A creation or a drop that was prepared happens. It takes no memory, and the answer is its number.
    pub fn enter(&mut self, event: StoreEvent<R>) -> u64
        ensures serves { (m : Core) (handed : ℕ) (move : Move) → IsOfStores move
            → m.timeline.base.number ≤ handed → handed ≤ number_of m → ServesAbove R.RowSet self.old m handed
            → ViewServes R.RowSet event.view (with_move m move)
            → ServesAbove R.RowSet self.new (with_move m move) handed }
        ensures all_handed { (m : Core) (move : Move) → IsOfStores move
            → ServesAbove R.RowSet self.old m (number_of m)
            → ViewServes R.RowSet event.view (with_move m move)
            → ServesAbove R.RowSet self.new (with_move m move) (number_of (with_move m move)) }
        ensures number { result ≡ event.view.number }
    {
        locks_stand_after_moves();
        let number = event.view.number();
        self.view = event.view;
        number
    }
}
