//! Changes, writes, and what a commit takes of the log.

use crate::pairs::{Pair, copy_of};
use hse_io::NoMemory;
use std::alloc::Global;

/// What is done to one key, or to the keys that begin with a prefix.
#[derive(Drop)]
pub(crate) enum Change {
    Put(Pair),
    Del(Vec<u8>),
    PDel(Vec<u8>),
}

/// A change of the store of an id.
#[derive(Drop)]
pub(crate) struct Write {
    pub(crate) store: u64,
    pub(crate) change: Change,
}

/// What an entry takes beside its changes, with what is charged for its batch.
const ENTRY_BYTES: u64 = 12 + 32;

/// What a put takes beside key and value.
const PUT_BYTES: u64 = 15;

/// What any other change takes beside its key or prefix.
const OTHER_BYTES: u64 = 11;

impl Change {
    /// The key that is changed, where it is one.
    fn key(&self) -> Option<&[u8]> {
        match self {
            Change::Put(pair) => Some(pair.key.as_slice()),
            Change::Del(key) => Some(key.as_slice()),
            Change::PDel(_) => None,
        }
    }

    /// How many bytes the log takes for it.
    fn bytes(&self) -> u64 {
        match self {
            Change::Put(pair) => {
                let beside = (pair.key.len() as u64).saturating_add(pair.value.len() as u64);
                beside.saturating_add(PUT_BYTES)
            }
            Change::Del(name) | Change::PDel(name) => (name.len() as u64).saturating_add(
                OTHER_BYTES,
            ),
        }
    }

    /// An equal change.
    pub(crate) fn copy(&self, alloc: Global) -> Result<Change, NoMemory> {
        match self {
            Change::Put(pair) => Ok(Change::Put(copy_of(alloc, pair)?)),
            Change::Del(key) => Ok(Change::Del(Vec::from_slice(alloc, key)?)),
            Change::PDel(prefix) => Ok(Change::PDel(Vec::from_slice(alloc, prefix)?)),
        }
    }

    /// Whether both are of one key, or one is of a prefix with which the key or the prefix of the other begins.
    fn overlaps(&self, other: &Change) -> bool {
        match (self, other) {
            (Change::PDel(one), Change::PDel(two)) => one.starts_with(two) || two.starts_with(one),
            (Change::PDel(prefix), _) => other.begins_with(prefix),
            (_, Change::PDel(prefix)) => self.begins_with(prefix),
            _ => self.key() == other.key(),
        }
    }

    fn begins_with(&self, prefix: &[u8]) -> bool {
        match self.key() {
            Some(key) => key.starts_with(prefix),
            None => false,
        }
    }

    /// Whether a later change of the same store leaves nothing of this one in the normal form.
    fn is_hidden_by(&self, later: &Change) -> bool {
        match (self, later) {
            (Change::PDel(one), Change::PDel(two)) => one.as_slice() == two.as_slice(),
            (Change::PDel(_), _) => false,
            (_, Change::PDel(prefix)) => self.begins_with(prefix),
            _ => self.key() == later.key(),
        }
    }
}

impl Write {
    /// An equal write.
    pub(crate) fn copy(&self, alloc: Global) -> Result<Write, NoMemory> {
        Ok(Write {
            store: self.store,
            change: self.change.copy(alloc)?,
        })
    }

    /// Whether both change one store at a key that they share.
    pub(crate) fn overlaps(&self, other: &Write) -> bool {
        self.store == other.store && self.change.overlaps(&other.change)
    }

    fn is_hidden_by(&self, later: &Write) -> bool {
        self.store == later.store && self.change.is_hidden_by(&later.change)
    }
}

/// Equal writes.
pub(crate) fn copy_writes(alloc: Global, writes: &[Write]) -> Result<Vec<Write>, NoMemory> {
    let mut copy = Vec::new(alloc);
    for write in writes {
        copy.push(write.copy(alloc)?)?;
    }
    Ok(copy)
}

/// Whether one of the writes overlaps this one.
pub(crate) fn any_overlaps(writes: &[Write], with: &Write) -> bool {
    writes.iter().any(|write| write.overlaps(with))
}

/// What a commit of these writes takes of the log's room: of what no later one hides.
pub(crate) fn charge_of(writes: &[Write]) -> u64 {
    let mut bytes = ENTRY_BYTES;
    for at in 0..writes.len() {
        let write = &writes[at];
        let later = &writes[at + 1..];
        if !later.iter().any(|next| write.is_hidden_by(next)) {
            bytes = bytes.saturating_add(write.change.bytes());
        }
    }
    bytes
}
