//! Which store, and how it is written.

/// A store's id: the number of the event that created it. It is never used again.
#[derive(Clone, Copy, Debug, PartialEq, Eq, PartialOrd, Ord)]
pub struct StoreId(pub u64);

/// How a store is written: each write a commit of its own, or in transactions only.
#[derive(Clone, Copy, Debug, PartialEq, Eq)]
pub enum Mode {
    Plain,
    Tx,
}
