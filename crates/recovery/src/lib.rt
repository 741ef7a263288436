//! Formats a device of many stores, and reads one again.
#![tactic(auto)]

mod fault;
mod formatting;
mod forming;
mod laws;
mod layer;
mod logs;
mod opening;
mod recovered;
mod region;
mod superblocks;
mod views;

pub use fault::{FormatFault, OpenFault};
pub use formatting::format;
pub use laws::images_have_one_loading;
pub use opening::recover;
pub use recovered::Recovered;
pub use region::Region;
