//! Prefixes with the numbers of their deletions.
#![tactic(auto)]

mod block;
mod entry;
mod fault;
mod filling;
mod prefix_list;
mod reading;

pub use fault::PrefixBlockFault;
pub use prefix_list::PrefixList;
