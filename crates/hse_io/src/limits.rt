//! The limits on what is read.

/// The most bytes that a line has, without its line feed.
pub const LONGEST_LINE: usize = 4_194_304;

/// The most bytes that the lines of a script have, each counted with one byte more.
pub const LONGEST_SCRIPT: u64 = (1 << 40) - 1;
