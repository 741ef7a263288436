//! The sources of a store of a view.
ghost use Rattle.std.specs.Prelude.{◌≡◌, ◌++◌, ◌∷◌, [], length, map, slice_get, Some, None, IfOk, OnOk};
ghost use Rattle.std.specs.Option.{option_map};
ghost use Rattle.ingest_tree.specs.Rows.{rows_in};
ghost use Rattle.view.specs.Views.{layers_with};
ghost use Rattle.view.specs.Merges as view_sources;
ghost use Rattle.view.specs.Merges.{tree_sets};
ghost use Rattle.cursors.specs.Sources.{source_rows};

use crate::source::Source;
use cn_tree::Tree;
use hse_io::NoMemory;
use hse_rows::{Shared, StoreId};
use ingest_tree::IngestTree;
use std::alloc::Global;
use view::{View, ViewStore};

/// Adds the rows of a store in a layer.
fn add_layer<R: Shared>(
    alloc: Global,
    sources: &mut Vec<Source<R>>,
    layer: &IngestTree,
    store: StoreId,
) -> Result<(), NoMemory>
    ensures { OnOk result (map (source_rows R.rows) sources.new.items
        ≡ map (source_rows R.rows) sources.old.items ++ rows_in store.0 layer.now ∷ []) }
{
    sources.push(Source::Layer(layer.rows(alloc, store)?))?;
    Ok(())
}

/// Adds one more owner of each of these sets.
fn add_sets<R: Shared>(
    alloc: Global,
    sources: &mut Vec<Source<R>>,
    sets: &[R],
) -> Result<(), NoMemory>
    ensures { OnOk result (map (source_rows R.rows) sources.new.items
        ≡ map (source_rows R.rows) sources.old.items ++ map R.rows sets.now) }
{
    for set in sets {
        sources.push(Source::Set(set.share(alloc)?))?;
    }
    Ok(())
}

/// Adds one more owner of each set of a tree, by node.
fn add_tree<R: Shared>(
    alloc: Global,
    sources: &mut Vec<Source<R>>,
    tree: &Tree<R>,
) -> Result<(), NoMemory>
    ensures { OnOk result (map (source_rows R.rows) sources.new.items
        ≡ map (source_rows R.rows) sources.old.items ++ map R.rows (tree_sets R.rows tree.now)) }
{
    for at in 0..tree.nodes() {
        let (_, sets) = tree.node(at);
        add_sets(alloc, sources, sets)?;
    }
    Ok(())
}

/// Adds the rows of a store in each layer of a view.
fn add_layers<R: Shared>(
    alloc: Global,
    sources: &mut Vec<Source<R>>,
    view: &View<R>,
    store: StoreId,
) -> Result<(), NoMemory>
    ensures { OnOk result (map (source_rows R.rows) sources.new.items
        ≡ map (source_rows R.rows) sources.old.items ++ map (rows_in store.0) view.now.layers) }
{
    for at in 0..view.layers() {
        if let Some(layer) = view.layer(at) {
            add_layer(alloc, sources, layer, store)?;
        }
    }
    Ok(())
}

/// The own writes, then the layers of a view, and then the sets of the store's tree.
pub(crate) fn sources_of<R: Shared>(
    alloc: Global,
    view: &View<R>,
    own: Option<&IngestTree>,
    store: &ViewStore<R>,
) -> Result<Vec<Source<R>>, NoMemory>
    ensures { IfOk result (λ sources. map (source_rows R.rows) sources.items
        ≡ view_sources.sources_of R.rows
        (layers_with (option_map (λ own. own.now) own.entry) view.now.layers) store.now) }
{
    let mut sources = Vec::new(alloc);
    if let Some(own) = own {
        add_layer(alloc, &mut sources, own, store.id)?;
    }
    add_layers(alloc, &mut sources, view, store.id)?;
    add_tree(alloc, &mut sources, &store.tree)?;
    Ok(sources)
}
