//! Blocks of keys: what a set of rows keeps its keys in, page by page.
#![tactic(auto)]

mod building;
mod entry;
mod key_block;
mod key_laws;
mod nth;
mod opening;
mod page;
mod placing;
mod putting;
mod reading;
mod search;
mod walk;

pub use building::KeyBlockBuilder;
pub use entry::KeyEntry;
pub use hse_fields::{BlockFull, Damaged, ValuePlace};
pub use key_block::KeyBlock;
pub use key_laws::key_blocks_are_read;
pub use opening::{open_key_block, open_key_block_behind};
pub use walk::KeyWalk;
