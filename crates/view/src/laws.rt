//! Laws of views. Each function does nothing; its contract is the laws.
ghost use Rattle.view.specs.Laws.{StoresAreNotNewer, NewerLayersGoOver, LayersTakeRows, LayersTakeWrites, CommitsHappen, FreezesKeepStates};
ghost use Rattle.view.specs.Laws.{StoresComeAndGo};
ghost use Rattle.view.specs.Merges.{SourcesAreRows, SourcesFall};

use hse_rows::{Shared, normal_forms_are_in_order};
use ingest_tree::stores_take_their_rows;
use row_laws::{first_sources_decide, keys_hold_newest_rows};

/// No row of a store of a view is newer than the view, so a layer of newer rows goes over its stores.
pub fn newer_layers_go_over<R: Shared>()
    ensures within { StoresAreNotNewer R R.rows }
    ensures over { NewerLayersGoOver R R.rows }
{}

/// A merge over a store may take its rows in each layer and then all sets of its tree in the order of
/// the nodes: together they are the store's rows, and the numbers of each key's own rows fall.
pub fn stores_are_merged<R: Shared>()
    ensures rows { SourcesAreRows R R.rows }
    ensures falls { SourcesFall R R.rows }
{
    first_sources_decide();
}

/// A row that applies last in a layer, in front of older rows, does to a store what its write does.
pub fn layers_take_rows()
    ensures { LayersTakeRows }
{
    keys_hold_newest_rows();
    stores_take_their_rows();
}

/// So do the rows of the writes of a commit, one after another, in a layer of older rows.
pub fn layers_take_writes()
    ensures { LayersTakeWrites }
{
    layers_take_rows();
}

/// A commit is its rows in the active layer, all of the next number: they do to a view's state what
/// the commit does.
pub fn commits_happen<R: Shared>()
    ensures { CommitsHappen R R.rows }
{
    normal_forms_are_in_order();
    layers_take_rows();
}

/// A freeze, which puts an empty active layer before the old one, keeps a view's state. With an empty
/// active layer alone it is a view too, so the two may be put in place one after the other.
pub fn freezes_keep_states<R: Shared>()
    ensures { FreezesKeepStates R R.rows }
{}

/// A store that was just created, behind the others, and the others without one that is dropped: they
/// do to a view's state what the creation and the drop do. Both have the next number.
pub fn stores_come_and_go<R: Shared>()
    ensures { StoresComeAndGo R R.rows }
{}
