//! What of a view lies behind its active layer.
ghost use Rattle.std.specs.Prelude.{◌≡◌, ◌==◌, IfOk};
ghost use Rattle.std.specs.List.{find};
ghost use Rattle.std.specs.Option.{option_map};
ghost use Rattle.hse_rows.specs.writes.NormalForm.{same};
ghost use Rattle.view.specs.Means.{AreApart};
ghost use Rattle.view.specs.Views.{rest_of};

use crate::index::index_of;
use crate::view_store::ViewStore;
use hse_io::NoMemory;
use hse_rows::{Shared, StoreId, StoreName};
use ingest_tree::IngestTree;
use std::alloc::Global;
use std::collections::BTreeMap;
use std::marker::Model;

/// The stores and the frozen layers of a view, which views share as one.
#[derive(Drop)]
pub(crate) struct Rest<R: Shared> {
    stores: Vec<ViewStore<R>>,
    by_name: BTreeMap<StoreName, u64>,
    frozen: Vec<IngestTree>,
}

impl<R: Shared> Model for Rest<R> {
    ghost use Rattle.view.specs.Views.{RestState, rest_of};
    ghost use Rattle.view.specs.Index.{IsIndex};

    ghost Value = { RestState R };

    ghost view = { λ rest. rest_of rest.stores.items rest.frozen.items };

    ghost invariant = { λ rest. IsIndex rest.stores.items rest.by_name };
}

/// The first of these stores that has an id.
fn find_id<R: Shared>(stores: &[ViewStore<R>], id: StoreId) -> Option<&ViewStore<R>>
    ensures { option_map (λ store. store.now) result
        ≡ find (λ store. store.id.0 == id.0) stores.now }
{
    for store in stores {
        if store.id.0 == id.0 {
            return Some(store);
        }
    }
    None
}

impl<R: Shared> Rest<R> {
    /// These stores and layers.
    pub(crate) fn of(
        alloc: Global,
        stores: Vec<ViewStore<R>>,
        frozen: Vec<IngestTree>,
    ) -> Result<Rest<R>, NoMemory>
        requires { AreApart stores.items }
        ensures { IfOk result (λ rest. rest ≡ rest_of stores.items frozen.items) }
    {
        let by_name = index_of(alloc, &stores)?;
        Ok(Rest {
            stores,
            by_name,
            frozen,
        })
    }

    /// The store of a name, by a search.
    pub(crate) fn store(&self, name: &StoreName) -> Option<&ViewStore<R>>
        ensures { option_map (λ store. store.now) result
            ≡ find (λ store. same store.name name.now) self.now.stores }
    {
        match self.by_name.get(name) {
            None => None,
            Some(at) => Some(&self.stores[*at as usize]),
        }
    }

    /// The store of an id. The stores are in no order of their ids, so each is asked.
    pub(crate) fn store_of(&self, id: StoreId) -> Option<&ViewStore<R>>
        ensures { option_map (λ store. store.now) result
            ≡ find (λ store. store.id.0 == id.0) self.now.stores }
    {
        find_id(&self.stores, id)
    }

    /// The stores, in the order in which they were given.
    pub(crate) fn stores(&self) -> &[ViewStore<R>]
        ensures { result.now ≡ self.now.stores }
    {
        &self.stores
    }

    /// The frozen layers, newest first.
    pub(crate) fn frozen(&self) -> &[IngestTree]
        ensures { result.now ≡ self.now.frozen }
    {
        &self.frozen
    }
}
