//! A view: the stores of one state of the engine, as layers of rows in memory over trees of sets.
#![tactic(auto)]

mod get_fault;
mod index;
mod laws;
mod layer;
mod rest;
mod view;
mod view_store;

pub use get_fault::{GetFault, TxnState};
pub use laws::{
    commits_happen, freezes_keep_states, layers_take_rows, layers_take_writes,
    newer_layers_go_over, stores_are_merged, stores_come_and_go,
};
pub use view::{View, is_key};
pub use view_store::ViewStore;
