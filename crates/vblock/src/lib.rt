//! Blocks of values: what a set of rows keeps its values in.
#![tactic(auto)]

mod building;
mod opening;
mod places;
mod reading;
mod value_block;

pub use building::ValueBlockBuilder;
pub use hse_fields::{BlockFull, Damaged};
pub use opening::open_value_block;
pub use value_block::ValueBlock;
