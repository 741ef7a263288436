//! Sets of rows, opened from their blocks and searched.
#![tactic(auto)]

mod block;
mod keys;
mod kvset;
mod meeting;
mod opening;
mod parts;
mod reading;
mod values;

pub use block::{Block, SetFault};
pub use kblock::ValuePlace;
pub use kvset::{Kvset, open_over, open_set};
