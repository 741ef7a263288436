//! What a job builds.

use cn_tree::NodePath;
use hse_rows::StoreId;

/// The blocks of a set, each of at most as many bytes as a slot has, in the order of its rows.
#[derive(Drop)]
pub struct Packed {
    pub prefixes: Vec<Vec<u8>>,
    pub keys: Vec<Vec<u8>>,
    pub values: Vec<Vec<u8>>,
}

/// A set that a job built, and the node to which it goes.
#[derive(Drop)]
pub struct NewSet {
    pub store: StoreId,
    pub path: NodePath,
    pub packed: Packed,
    /// The slots of the blocks of values that are taken over, in the order of the set's numbers.
    pub kept: Vec<u32>,
}

/// The sets that a job built.
#[derive(Drop)]
pub struct Built {
    pub sets: Vec<NewSet>,
}
