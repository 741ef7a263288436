//! The view of a device that was opened.
ghost use Rattle.std.specs.Prelude.{◌≡◌, ◌≤◌, map, IfOk};
ghost use Rattle.std.specs.List.{AllByRecursion};
ghost use Rattle.ingest_tree.specs.declared.store_row.StoreRow.{StoreRow as a_row};
ghost use Rattle.manifest.specs.Metadata.{AreApart};
ghost use Rattle.manifest.specs.Views.{metadata_as, stores_as};
ghost use Rattle.recovery.specs.Opened.{empty_store, opened_view};

use cn_tree::Tree;
use hse_io::NoMemory;
use hse_rows::Shared;
use ingest_tree::IngestTree;
use manifest::{Base, BaseStore};
use std::alloc::Global;
use view::{View, ViewStore};

/// The live stores, without sets.
fn empty_stores<R: Shared>(
    alloc: Global,
    stores: &[BaseStore],
) -> Result<Vec<ViewStore<R>>, NoMemory>
    ensures { IfOk result (λ live. live.items ≡ map (empty_store R) (stores_as stores.now)) }
{
    let mut live = Vec::new(alloc);
    let mut rest = stores;
    while let [store, more @ ..] = rest {
        live.push(ViewStore {
            name: store.name.share(alloc)?,
            id: store.id,
            mode: store.mode,
            prefix: store.prefix,
            tree: Tree::empty(store.prefix),
        })?;
        rest = more;
    }
    Ok(live)
}

/// The view of the live stores under a layer.
pub(crate) fn view_over<R: Shared>(
    alloc: Global,
    base: &Base,
    number: u64,
    layer: IngestTree,
) -> Result<View<R>, NoMemory>
    requires apart { AreApart (metadata_as base.now) }
    requires low { AllByRecursion (λ (row : a_row). row.row.number ≤ number) layer }
    ensures { IfOk result (λ view.
        view ≡ opened_view R number (stores_as base.now.stores.items) layer) }
{
    let stores = empty_stores(alloc, &base.stores)?;
    View::of(alloc, number, stores, layer, Vec::new(alloc))
}
