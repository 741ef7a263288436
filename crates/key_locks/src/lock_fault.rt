//! Why a write got no lock.
use thiserror::Error;

/// What cancels a write, or that there is no memory for its lock.
#[derive(Clone, Copy, Debug, PartialEq, Eq, Error)]
pub enum LockFault {
    /// This other transaction, of these the one with the least number, has a write that overlaps.
    #[error("held by transaction {0}")]
    Held(u64),
    /// This commit after the snapshot, the first of these, has a write that overlaps.
    #[error("changed since the snapshot by commit {0}")]
    Since(u64),
    /// There was no memory; no lock was taken.
    #[error("out of memory")]
    NoMemory,
}
