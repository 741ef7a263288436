//! The device side of the engine: a device with the places of its log and its manifest, and what a turn writes.
#![tactic(auto)]

mod back;
mod entering;
mod laws;
mod plan;
mod planning;
mod syncing;

pub use back::Back;
pub use laws::{
    loaded_lives_keep_limits, loaded_metadata_may_be_bases, manifests_gain_as_the_machine_counts,
    plans_are_as_the_machine_counts, turns_count_their_events, turns_store_the_next_states,
};
pub use plan::{EntryPlan, PlanFault};
