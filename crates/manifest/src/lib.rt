//! The manifest of a device: which stores live, by a base and the creations and drops behind it.
#![tactic(auto)]

mod base;
mod batches;
mod change;
mod describe;
mod encode;
mod entries;
mod entry;
mod fault;
mod heads;
mod laws;
mod loaded;
mod loading;
mod manifest;
mod runs;
mod size;
mod stores;
mod writing;

pub use base::{Base, BaseStore};
pub use change::put_taken;
pub use encode::{encode_base, encode_entry};
pub use entry::Entry;
pub use fault::ManifestFault;
pub use laws::{
    entries_are_as_the_machine_counts, entries_are_read, first_bases_are_in_force,
    manifests_have_one_reading, read_entries_are_spelled,
};
pub use loaded::{LoadFault, Loaded};
pub use loading::load;
pub use manifest::Manifest;
