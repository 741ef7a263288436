//! A live transaction.

/// A live transaction by its begin order, and the number of its snapshot.
#[derive(Clone, Copy, Debug, PartialEq, Eq)]
pub(crate) struct LiveTxn {
    pub order: u64,
    pub snapshot: u64,
}
