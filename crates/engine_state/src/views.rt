//! Views with other stores.
ghost use Rattle.std.specs.Prelude.{◌≡◌, ◌<◌, ◌^◌, ◌==◌, [], ◌∷◌, ◌++◌, None, not, IfOk, OnOk, drop};
ghost use Rattle.std.specs.List.{find};
ghost use Rattle.hse_rows.specs.writes.NormalForm.{same};
ghost use Rattle.view.specs.Means.{IsView};
ghost use Rattle.view.specs.Stores.{without_store};
ghost use Rattle.engine_state.specs.Stores.{but, with_stores, with_new, new_in};

use cn_tree::Tree;
use hse_io::NoMemory;
use hse_rows::{Mode, Shared, StoreId, StoreName};
use ingest_tree::IngestTree;
use std::alloc::Global;
use view::{View, ViewStore, stores_come_and_go};

/// One more owner of the same store.
fn share_store<R: Shared>(alloc: Global, store: &ViewStore<R>) -> Result<ViewStore<R>, NoMemory>
    ensures { IfOk result (λ shared. shared ≡ store.now) }
{
    let name = store.name.share(alloc)?;
    let tree = store.tree.share(alloc)?;
    Ok(ViewStore {
        name,
        id: store.id,
        mode: store.mode,
        prefix: store.prefix,
        tree,
    })
}

/// Adds one more owner of a store.
fn add_store<R: Shared>(
    alloc: Global,
    stores: &mut Vec<ViewStore<R>>,
    store: &ViewStore<R>,
) -> Result<(), NoMemory>
    ensures { OnOk result (stores.new.items ≡ stores.old.items ++ store.now ∷ []) }
{
    stores.push(share_store(alloc, store)?)?;
    Ok(())
}

/// Whether a store has another id.
fn is_other<R: Shared>(store: &ViewStore<R>, id: StoreId) -> bool
    ensures { result ≡ not (store.now.id.0 == id.0) }
{
    store.id.0 != id.0
}

/// The stores but that of an id, shared.
fn stores_but<R: Shared>(
    alloc: Global,
    stores: &[ViewStore<R>],
    id: StoreId,
) -> Result<Vec<ViewStore<R>>, NoMemory>
    ensures { IfOk result (λ kept. kept.items ≡ but id.0 stores.now) }
{
    let mut kept = Vec::new(alloc);
    for store in stores {
        if is_other(store, id) {
            add_store(alloc, &mut kept, store)?;
        }
    }
    Ok(kept)
}

/// Adds one more owner of a layer.
fn add_layer(
    alloc: Global,
    layers: &mut Vec<IngestTree>,
    layer: &IngestTree,
) -> Result<(), NoMemory>
    ensures { OnOk result (layers.new.items ≡ layers.old.items ++ layer.now ∷ []) }
{
    layers.push(layer.share(alloc)?)?;
    Ok(())
}

/// The frozen layers of a view, shared.
fn frozen_of<R: Shared>(alloc: Global, view: &View<R>) -> Result<Vec<IngestTree>, NoMemory>
    ensures { IfOk result (λ frozen. frozen.items ≡ drop 1 view.now.layers) }
{
    let mut frozen = Vec::new(alloc);
    for place in 1..view.layers() {
        if let Some(layer) = view.layer(place) {
            add_layer(alloc, &mut frozen, layer)?;
        }
    }
    Ok(frozen)
}

/// A view of the next number with other stores.
fn view_with<R: Shared>(
    alloc: Global,
    view: &View<R>,
    stores: Vec<ViewStore<R>>,
) -> Result<View<R>, NoMemory>
    requires number { view.now.number < 2 ^ 62 }
    requires is { IsView R.RowSet.rows (with_stores view.now stores.items) }
    ensures { IfOk result (λ after. after ≡ with_stores view.now stores.items) }
{
    // There is always an active layer.
    let Some(layer) = view.layer(0) else {
        return Err(NoMemory);
    };
    let active = layer.share(alloc)?;
    let frozen = frozen_of(alloc, view)?;
    let number = view.number();
    View::of(alloc, number + 1, stores, active, frozen)
}

/// A view with one store more, which was just created and has the next number for its id. No store of a
/// state has it before.
pub(crate) fn view_created<R: Shared>(
    alloc: Global,
    view: &View<R>,
    name: &StoreName,
    mode: Mode,
    prefix: u8,
) -> Result<View<R>, NoMemory>
    requires number { view.now.number < 2 ^ 62 }
    requires named { find (λ store. same store.name name.now) view.now.stores ≡ None }
    ensures { IfOk result (λ after. after ≡ with_new view.now (new_in view.now name.now mode prefix)) }
{
    stores_come_and_go::<R>();
    let number = view.number();
    let id = StoreId(number + 1);
    let mut kept = stores_but(alloc, view.stores(), id)?;
    let text = name.share(alloc)?;
    kept.push(ViewStore {
        name: text,
        id,
        mode,
        prefix,
        tree: Tree::empty(prefix),
    })?;
    view_with(alloc, view, kept)
}

/// A view without the store of an id.
pub(crate) fn view_dropped<R: Shared>(
    alloc: Global,
    view: &View<R>,
    id: StoreId,
) -> Result<View<R>, NoMemory>
    requires number { view.now.number < 2 ^ 62 }
    ensures { IfOk result (λ after. after ≡ without_store view.now id.0) }
{
    stores_come_and_go::<R>();
    let _last = view.number();
    let kept = stores_but(alloc, view.stores(), id)?;
    view_with(alloc, view, kept)
}
