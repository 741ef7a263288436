//! A view of a state.
ghost use Rattle.std.specs.Prelude.{◌≡◌, ◌==◌, ◌↔◌, ◌∷◌, length, map, slice_get, IsTrue, IfOk, IfErr, IfSome};
ghost use Rattle.std.specs.List.{find};
ghost use Rattle.std.specs.Option.{option_map};
ghost use Rattle.std.specs.FinMap as fin_map;
ghost use Rattle.hse_rows.specs.writes.Lengths.{IsKeyLength};
ghost use Rattle.hse_rows.specs.writes.NormalForm.{same};
ghost use Rattle.hse_rows.specs.rows.Meaning.{contents_of};
ghost use Rattle.ingest_tree.specs.Rows.{rows_in};
ghost use Rattle.row_laws.specs.Lookup.{word_of};
ghost use Rattle.row_laws.specs.Sources.{first_said};
ghost use Rattle.view.specs.declared.view_store.ViewStore.{ViewStore as a_store};
ghost use Rattle.view.specs.Views.{rest_of, view_of, with_active, with_rest, layers_with};
ghost use Rattle.view.specs.Means.{IsView, IsUnder, state_of, store_rows};
ghost use Rattle.view.specs.Gets.{Gets, RefusesGet};

use crate::get_fault::GetFault;
use crate::layer::{first_word, layer_word, value_of};
use crate::rest::Rest;
use crate::view_store::ViewStore;
use hse_io::NoMemory;
use hse_rows::{LONGEST_KEY, Shared, StoreId, StoreName};
use ingest_tree::IngestTree;
use row_laws::{Word, first_sources_decide, merged_rows_are_entries};
use std::alloc::Global;
use std::marker::Model;
use std::sync::Arc;

/// The stores of one state: an active layer, frozen layers and a tree for each store. A view never
/// changes what others see of it: views share their parts.
#[derive(Drop)]
pub struct View<R: Shared> {
    number: u64,
    active: IngestTree,
    rest: Arc<Rest<R>>,
}

impl<R: Shared> Model for View<R> {
    ghost use Rattle.std.specs.Arc.{arc_value};
    ghost use Rattle.view.specs.Views.{ViewState, view_of};
    ghost use Rattle.view.specs.Means.{IsView};

    ghost Value = { ViewState R };

    ghost view = { λ v. view_of v.number v.active (arc_value v.rest) };

    ghost invariant = { λ v. IsView R.rows (view_of v.number v.active (arc_value v.rest)) };
}

/// Whether these bytes may be a key: 1 to 1,344. It takes no memory.
pub fn is_key(bytes: &[u8]) -> bool
    ensures { IsTrue result ↔ IsKeyLength (length bytes.now) }
{
    if bytes.is_empty() {
        return false;
    }
    bytes.len() <= LONGEST_KEY
}

impl<R: Shared> View<R> {
    /// A view of these stores, with these layers over them, the newest first.
    pub fn of(
        alloc: Global,
        number: u64,
        stores: Vec<ViewStore<R>>,
        active: IngestTree,
        frozen: Vec<IngestTree>,
    ) -> Result<View<R>, NoMemory>
        requires { IsView R.rows (view_of number active (rest_of stores.items frozen.items)) }
        ensures { IfOk result (λ view. view ≡ view_of number active (rest_of stores.items frozen.items)) }
    {
        let rest = Arc::new(alloc, Rest::of(alloc, stores, frozen)?)?;
        Ok(View {
            number,
            active,
            rest,
        })
    }

    /// One more owner of the same view, which shares its parts.
    pub fn share(&self, alloc: Global) -> Result<View<R>, NoMemory>
        ensures { IfOk result (λ view. view ≡ self.now) }
    {
        let active = self.active.share(alloc)?;
        let rest = self.rest.clone()?;
        Ok(View {
            number: self.number,
            active,
            rest,
        })
    }

    /// The last number of its state. It takes no memory.
    pub fn number(&self) -> u64
        ensures number { result ≡ self.now.number }
        ensures known { IsView R.rows self.now }
    {
        self.number
    }

    /// The store of a name, and none where no store has it. It takes no memory.
    pub fn store(&self, name: &StoreName) -> Option<&ViewStore<R>>
        ensures store { option_map (λ store. store.now) result
            ≡ find (λ store. same store.name name.now) self.now.stores }
        ensures known { IfSome result (λ store. IsUnder R.rows self.now.layers store.now) }
    {
        self.rest.store(name)
    }

    /// The store of an id, and none where no store has it. It takes no memory.
    pub fn store_of(&self, id: StoreId) -> Option<&ViewStore<R>>
        ensures store { option_map (λ store. store.now) result
            ≡ find (λ store. store.id.0 == id.0) self.now.stores }
        ensures known { IfSome result (λ store. IsUnder R.rows self.now.layers store.now) }
    {
        self.rest.store_of(id)
    }

    /// Its stores, in the order in which they were given. It takes no memory.
    pub fn stores(&self) -> &[ViewStore<R>]
        ensures { result.now ≡ self.now.stores }
    {
        self.rest.stores()
    }

    /// How many layers there are. It takes no memory.
    pub fn layers(&self) -> u64
        ensures { result ≡ length self.now.layers }
    {
        self.rest.frozen().len() as u64 + 1
    }

    /// The layer at a place: the active one at 0, and then the frozen ones, newest first. It takes no
    /// memory.
    pub fn layer(&self, place: u64) -> Option<&IngestTree>
        ensures { option_map (λ layer. layer.now) result ≡ slice_get self.now.layers place }
    {
        if place == 0 {
            return Some(&self.active);
        }
        self.rest.frozen().get((place - 1) as usize)
    }

    /// Another active layer and number. It takes no memory.
    pub fn set_active(&mut self, number: u64, active: IngestTree)
        requires { IsView R.rows (with_active self.old number active) }
        ensures { self.new ≡ with_active self.old number active }
    {
        self.number = number;
        self.active = active;
    }

    /// The stores and the frozen layers of another view. It takes no memory.
    pub fn set_rest(&mut self, after: View<R>)
        requires { IsView R.rows (with_rest self.old after) }
        ensures { self.new ≡ with_rest self.old after }
    {
        self.rest = after.rest;
    }

    /// What the layers say of a key of a store, the newest first.
    fn word(&self, store: StoreId, key: &[u8]) -> Word<'_>
        ensures { word_of result ≡ first_said key.now (map (rows_in store.0) self.now.layers) }
    {
        let word = layer_word(&self.active, store, key);
        match word {
            Word::Nothing => first_word(self.rest.frozen(), store, key),
            Word::Absent => word,
            Word::Value(_) => word,
        }
    }

    /// The same, where one more layer may go in front of them.
    fn word_under<'a>(&'a self, own: Option<&'a IngestTree>, store: StoreId, key: &[u8]) -> Word<'a>
        ensures { word_of result ≡ first_said key.now
            (map (rows_in store.0) (layers_with (option_map (λ own. own.now) own.entry) self.now.layers)) }
    {
        match own {
            None => self.word(store, key),
            Some(own) => {
                let word = layer_word(own, store, key);
                match word {
                    Word::Nothing => self.word(store, key),
                    Word::Absent => word,
                    Word::Value(_) => word,
                }
            }
        }
    }

    /// The value of a key in a store of the view, where one more layer may go in front of the view's:
    /// the writes of a transaction. It takes no memory, and lends the value.
    pub fn value<'a>(
        &'a self,
        own: Option<&'a IngestTree>,
        store: &'a ViewStore<R>,
        key: &[u8],
    ) -> Option<&'a [u8]>
        requires { IsUnder R.rows
            (layers_with (option_map (λ own. own.now) own) self.now.layers) store.now }
        ensures { option_map (λ bytes. bytes.now) result ≡ fin_map.get (contents_of (store_rows R.rows
            (layers_with (option_map (λ own. own.now) own.entry) self.now.layers) store.now)) key.now }
    {
        first_sources_decide();
        merged_rows_are_entries();
        let _nodes = store.tree.nodes();
        match self.word_under(own, store.id, key) {
            Word::Nothing => value_of(store.tree.find(key)),
            Word::Absent => None,
            Word::Value(value) => Some(value),
        }
    }

    /// The value of a key of the store of a name in the view's state. It goes through the layers, the
    /// newest first, and then along one path of the store's tree, and ends at the first row that
    /// decides. It takes no memory, and lends the value. `NoStore` comes exactly where no store has the
    /// name, `KeyLength` exactly where one has and the key's bytes are not 1 to 1,344, with their number.
    pub fn get(&self, store: &StoreName, key: &[u8]) -> Result<Option<&[u8]>, GetFault>
        ensures value { IfOk result (λ value. Gets (state_of R.rows self.now) store.now key.now
            (option_map (λ bytes. bytes.now) value)) }
        ensures refused { IfErr result (RefusesGet (state_of R.rows self.now) store.now key.now) }
    {
        match self.store(store) {
            None => Err(GetFault::NoStore),
            Some(found) => {
                if !is_key(key) {
                    return Err(GetFault::KeyLength(key.len() as u64));
                }
                Ok(self.value(None, found, key))
            }
        }
    }
}
