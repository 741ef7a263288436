//! A change with the number of its commit.
use crate::change::{Change, ChangeRef};

/// A change, and the number of the commit that made it.
#[derive(Drop)]
pub struct Row {
    pub number: u64,
    pub change: Change,
}

/// A row whose bytes are lent.
#[derive(Clone, Copy, Debug, PartialEq, Eq)]
pub struct RowRef<'a> {
    pub number: u64,
    pub change: ChangeRef<'a>,
}
