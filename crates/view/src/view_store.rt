//! A store of a view.
use cn_tree::Tree;
use hse_rows::{Mode, Shared, StoreId, StoreName};

/// A store of a view: its name, id and mode, how many bytes its prefixes have at most, and its sets.
#[derive(Drop)]
pub struct ViewStore<R: Shared> {
    pub name: StoreName,
    pub id: StoreId,
    pub mode: Mode,
    pub prefix: u8,
    pub tree: Tree<R>,
}
