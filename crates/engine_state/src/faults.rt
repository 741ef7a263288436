//! Why a call was refused. The first of a type's variants that is so is the one that is answered,
//! but that out of memory may come in place of any.
use thiserror::Error;
use view::TxnState;

/// Why no transaction began.
#[derive(Clone, Copy, Debug, PartialEq, Eq, Error)]
pub enum BeginFault {
    /// So many transactions are live as may be.
    #[error("{0} transactions are live")]
    TooMany(u64),
    /// No number is left for a commit, or for a begin.
    #[error("no number is left")]
    Spent,
    #[error("out of memory")]
    NoMemory,
}

/// Why a write was refused.
#[derive(Clone, Copy, Debug, PartialEq, Eq, Error)]
pub enum WriteFault {
    /// The transaction has ended so.
    #[error("the transaction has ended")]
    NotActive(TxnState),
    /// No store has the name, or it is dropped.
    #[error("no store has this name")]
    NoStore,
    /// A transaction writes a `plain` store, or a write outside of them a `tx` store.
    #[error("the store is not written so")]
    Mode,
    /// The key has this many bytes, and not 1 to 1,344.
    #[error("a key of {0} bytes")]
    KeyLength(u64),
    /// The value has this many bytes, more than any may or than a slot takes.
    #[error("a value of {0} bytes")]
    ValueLength(u64),
    /// The prefix has this many bytes, none or more than the store's prefixes.
    #[error("a prefix of {0} bytes")]
    PrefixLength(u64),
    /// A device call failed since the last opening.
    #[error("the engine is broken")]
    Broken,
    /// No number is left for a commit.
    #[error("no number is left")]
    Spent,
    /// The commit would take so many bytes of a segment's room, which is less.
    #[error("a commit of {0} bytes in a segment of {1}")]
    TxnSize(u64, u64),
    /// The commit takes so many bytes, more than the segment has left.
    #[error("a commit of {0} bytes where {1} are left")]
    LogFull(u64, u64),
    /// The live transaction of this begin order, the first of these, has a write that overlaps.
    #[error("held by transaction {0}")]
    Held(u64),
    /// This commit after the snapshot, the first of these, has a write that overlaps.
    #[error("changed since the snapshot by commit {0}")]
    Since(u64),
    #[error("out of memory")]
    NoMemory,
}

/// Why a transaction was not committed.
#[derive(Clone, Copy, Debug, PartialEq, Eq, Error)]
pub enum CommitFault {
    /// The transaction has ended so.
    #[error("the transaction has ended")]
    NotActive(TxnState),
    /// A device call failed since the last opening.
    #[error("the engine is broken")]
    Broken,
    /// No number is left for a commit.
    #[error("no number is left")]
    Spent,
    /// The commit takes so many bytes, more than the segment has left.
    #[error("a commit of {0} bytes where {1} are left")]
    LogFull(u64, u64),
    #[error("out of memory")]
    NoMemory,
}

/// Why no store was created.
#[derive(Clone, Copy, Debug, PartialEq, Eq, Error)]
pub enum CreateFault {
    /// A live store has the name.
    #[error("a store has this name")]
    StoreExists,
    /// The prefix length is this one, above 32.
    #[error("a prefix length of {0}")]
    PrefixLength(u64),
    /// A device call failed since the last opening.
    #[error("the engine is broken")]
    Broken,
    /// So many stores are live as may be.
    #[error("{0} stores are live")]
    TooMany(u64),
    /// No number is left for an event.
    #[error("no number is left")]
    Spent,
    #[error("out of memory")]
    NoMemory,
}

/// Why no store was dropped.
#[derive(Clone, Copy, Debug, PartialEq, Eq, Error)]
pub enum DropFault {
    /// No store has the name.
    #[error("no store has this name")]
    NoStore,
    /// A device call failed since the last opening.
    #[error("the engine is broken")]
    Broken,
    /// The live transaction of this begin order, the first of these, has a write in the store.
    #[error("held by transaction {0}")]
    StoreHeld(u64),
    /// No number is left for an event.
    #[error("no number is left")]
    Spent,
    #[error("out of memory")]
    NoMemory,
}

/// So many cursors are open as may be.
#[derive(Clone, Copy, Debug, PartialEq, Eq, Error)]
#[error("{0} cursors are open")]
pub struct CursorsFull(pub u64);
