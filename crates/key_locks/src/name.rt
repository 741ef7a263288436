//! A key or a prefix of a store.
use hse_rows::Key;

/// A key or a prefix of the store with this id. Names are in the order of stores, then of bytes.
#[derive(Drop, PartialEq, Eq, PartialOrd, Ord)]
pub(crate) struct Name {
    pub store: u64,
    pub bytes: Key,
    pub is_key: bool,
}
