//! A store's sets of rows at the nodes of a tree, to which its keys are routed.
#![tactic(auto)]

mod laws;
mod lookup;
mod node;
mod node_path;
mod nodes;
mod routing;
mod runs;
mod schedule;
mod tree;
mod tree_fault;

pub use laws::{picks_are_wishes, trees_are_layouts};
pub use node_path::NodePath;
pub use routing::route;
pub use schedule::{Pick, PickKind};
pub use tree::Tree;
pub use tree_fault::TreeFault;
