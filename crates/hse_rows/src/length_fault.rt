//! Why bytes were refused that are too few or too many.

use thiserror::Error;

/// Why no key, edge, prefix or value was made of bytes.
#[derive(Clone, Copy, Debug, PartialEq, Eq, Error)]
pub enum LengthFault {
    /// The number of bytes that were given.
    #[error("{0} bytes are too few or too many")]
    Length(u64),
    #[error("out of memory")]
    NoMemory,
}
