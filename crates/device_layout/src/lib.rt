//! The layout of a device of many stores: its regions, its limits, and its superblock's text.
#![tactic(auto)]

mod fault;
mod laws;
mod layout;
mod params;
mod superblock;

pub use fault::LayoutFault;
pub use laws::superblocks_are_read;
pub use layout::{Layout, SUPERBLOCK};
pub use params::Params;
