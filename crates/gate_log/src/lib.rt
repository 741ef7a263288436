//! One gated region of a device: batches that are whole or not there, whenever the device stops.
#![tactic(auto)]

mod appending;
mod batch;
mod closing;
mod found;
mod front;
mod gate;
mod laws;
mod parse;
mod reading;
mod region;
mod starting;
mod synced_write;

pub use appending::{AppendFault, append};
pub use batch::Batch;
pub use found::{Found, Payload, RegionFault};
pub use front::{End, Front, FrontFault};
pub use gate::OPEN_GATE;
pub use laws::regions_have_one_reading;
pub use reading::{read_front, read_region};
pub use region::{FIRST_GATE, FRAME_SIZE, LEAST_SIZE, Region, Tail};
pub use starting::start;
