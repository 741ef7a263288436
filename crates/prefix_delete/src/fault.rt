//! Why a block of prefix deletes was not read.

use thiserror::Error;

/// Why a block of prefix deletes was not read.
#[derive(Clone, Copy, Debug, PartialEq, Eq, Error)]
pub enum PrefixBlockFault {
    /// The place of the first field that is refused.
    #[error("the block is damaged at {0}")]
    Damaged(u64),
    /// There is no memory for the prefixes.
    #[error("out of memory")]
    NoMemory,
}
