//! Packs the rows of a set into blocks.
#![tactic(auto)]

mod keys;
mod laws;
mod packed;
mod packer;
mod prefixes;
mod values;

pub use hse_fields::ValuePlace;
pub use laws::{packed_sets_are_opened, packed_sets_are_read};
pub use packed::{Built, NewSet, Packed};
pub use packer::Packer;
