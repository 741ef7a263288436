//! Transactions.

use crate::change::{Write, any_overlaps};
use crate::refusal::Refusal;
use crate::state::State;
use hse_io::NoMemory;
use std::alloc::Global;

/// Whether a transaction may still write.
#[derive(Clone, Copy, PartialEq, Eq, Drop)]
pub(crate) enum Standing {
    Active,
    Committed,
    Aborted,
}

/// A transaction: the state when it began, and its writes in the order made.
#[derive(Drop)]
pub(crate) struct Transaction {
    pub(crate) name: Vec<u8>,
    pub(crate) snapshot: State,
    pub(crate) writes: Vec<Write>,
    pub(crate) standing: Standing,
}

impl Transaction {
    /// What it reads: its snapshot with its own writes.
    pub(crate) fn read(&self, alloc: Global) -> Result<State, NoMemory> {
        let mut state = self.snapshot.copy(alloc)?;
        state.apply_all(alloc, &self.writes)?;
        Ok(state)
    }

    pub(crate) fn is_active(&self) -> bool {
        self.standing == Standing::Active
    }

    /// Refuses one that has ended.
    pub(crate) fn expect_active(&self) -> Result<(), Refusal> {
        match self.standing {
            Standing::Active => Ok(()),
            Standing::Committed => Err(Refusal::Plain(b"err done committed")),
            Standing::Aborted => Err(Refusal::Plain(b"err done aborted")),
        }
    }

    /// Whether it is live and has a write of the store.
    pub(crate) fn holds_store(&self, store: u64) -> bool {
        self.is_active() && self.writes.iter().any(|write| write.store == store)
    }

    /// Whether it is live and has a write that overlaps this one.
    fn holds(&self, write: &Write) -> bool {
        self.is_active() && any_overlaps(&self.writes, write)
    }
}

/// The place of the transaction that a name means: of those begun under it the last.
pub(crate) fn place_of(transactions: &[Transaction], name: &[u8]) -> Option<usize> {
    let mut place = None;
    for at in 0..transactions.len() {
        if transactions[at].name.as_slice() == name {
            place = Some(at);
        }
    }
    place
}

/// The first begun transaction but the one at a place that holds a write.
pub(crate) fn holder_of<'a>(
    transactions: &'a [Transaction],
    but: usize,
    write: &Write,
) -> Option<&'a [u8]> {
    for at in 0..transactions.len() {
        let other = &transactions[at];
        if at != but && other.holds(write) {
            return Some(other.name.as_slice());
        }
    }
    None
}
