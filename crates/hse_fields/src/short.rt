//! What is missing.

use thiserror::Error;

/// Fewer bytes stand there than are needed.
#[derive(Clone, Copy, Debug, PartialEq, Eq, Error)]
#[error("{have} bytes stand where {need} are needed")]
pub struct Short {
    /// How many bytes stand there.
    pub have: u64,
    /// How many are needed.
    pub need: u64,
}
