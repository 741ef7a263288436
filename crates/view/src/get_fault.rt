//! Why a get was refused.
use thiserror::Error;

/// How far a transaction is.
#[derive(Clone, Copy, Debug, PartialEq, Eq)]
pub enum TxnState {
    /// It takes writes.
    Active,
    /// Its writes are in the history.
    Committed,
    /// Its writes are gone.
    Aborted,
}

/// Why a get was refused. The first of these that is so is the one that is answered.
#[derive(Clone, Copy, Debug, PartialEq, Eq, Error)]
pub enum GetFault {
    /// The transaction has ended so. A view never answers this.
    #[error("the transaction has ended")]
    NotActive(TxnState),
    /// No store has the name.
    #[error("no store has this name")]
    NoStore,
    /// The key has this many bytes, and not 1 to 1,344.
    #[error("a key of {0} bytes")]
    KeyLength(u64),
}
