//! Cursors.

use crate::pairs::{Pair, copy_of, is_less};
use hse_io::NoMemory;
use std::alloc::Global;

/// Where a cursor stands in its direction.
#[derive(Drop)]
pub(crate) enum Position {
    Front,
    At(Vec<u8>),
    Past(Vec<u8>),
}

/// A cursor over the pairs that its store had when it was made or updated.
#[derive(Drop)]
pub(crate) struct Cursor {
    pub(crate) name: Vec<u8>,
    pub(crate) transaction: Option<usize>,
    pub(crate) store: u64,
    pub(crate) reverse: bool,
    pub(crate) filter: Vec<u8>,
    pub(crate) list: Vec<Pair>,
    pub(crate) position: Position,
    pub(crate) last: Option<Vec<u8>>,
}

/// Those of the pairs whose keys begin with a filter, in direction.
pub(crate) fn list_of(
    alloc: Global,
    pairs: &[Pair],
    reverse: bool,
    filter: &[u8],
) -> Result<Vec<Pair>, NoMemory> {
    let mut list = Vec::new(alloc);
    for pair in pairs {
        if pair.key.starts_with(filter) {
            list.push(copy_of(alloc, pair)?)?;
        }
    }
    if reverse {
        list.reverse();
    }
    Ok(list)
}

impl Cursor {
    /// Whether one key stands before another in direction.
    fn is_before(&self, one: &[u8], other: &[u8]) -> bool {
        if self.reverse {
            return is_less(other, one);
        }
        is_less(one, other)
    }

    /// Whether a key stands at or past the position and is not behind the last key.
    fn is_left(&self, key: &[u8]) -> bool {
        let stands = match &self.position {
            Position::Front => true,
            Position::At(from) => !self.is_before(key, from),
            Position::Past(from) => self.is_before(from, key),
        };
        match &self.last {
            Some(last) => stands && !is_less(last, key),
            None => stands,
        }
    }

    /// The first pair that is left.
    pub(crate) fn first(&self) -> Option<&Pair> {
        for pair in &self.list {
            if self.is_left(&pair.key) {
                return Some(pair);
            }
        }
        None
    }
}
