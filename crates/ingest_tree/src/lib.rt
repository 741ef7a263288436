//! Rows of several stores in a tree of shared leaves and branches.
#![tactic(auto)]

mod builder;
mod chunk;
mod iter;
mod laws;
mod lengths;
mod mark;
mod node;
mod part;
mod piece;
mod search;
mod steps;
mod store_row;
mod store_rows;
mod tree;

pub use iter::IngestIter;
pub use laws::stores_take_their_rows;
pub use steps::Steps;
pub use store_row::StoreRow;
pub use store_rows::StoreRows;
pub use tree::IngestTree;
