//! The commits since the opening.

use crate::change::{Write, any_overlaps};

/// The writes of one number.
#[derive(Drop)]
pub(crate) struct Commit {
    pub(crate) number: u64,
    pub(crate) writes: Vec<Write>,
}

/// The least number above a snapshot of a commit that overlaps a write.
pub(crate) fn changed_since(commits: &[Commit], snapshot: u64, write: &Write) -> Option<u64> {
    for commit in commits {
        if snapshot < commit.number && any_overlaps(&commit.writes, write) {
            return Some(commit.number);
        }
    }
    None
}
