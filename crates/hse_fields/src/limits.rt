//! The numbers of the log's text. The lengths are in bytes.

/// The first byte of a put.
pub const PUT: u8 = 1;

/// The first byte of a deletion.
pub const DELETION: u8 = 2;

/// The first byte of a prefix delete.
pub const PREFIX_DELETE: u8 = 3;

/// The most bytes that a key has.
pub const LONGEST_KEY: u64 = 1_344;

/// The most bytes that a prefix has.
pub const LONGEST_PREFIX: u64 = 32;

/// The most bytes that a value has whose length can be written.
pub const LONGEST_VALUE: u64 = 4_294_967_295;
