//! A commit.

use hse_rows::WriteSet;

/// A commit: its number in the history, and its changes in normal form.
#[derive(Drop)]
pub struct Commit {
    pub number: u64,
    pub writes: WriteSet,
}
