//! What the device holds of the log and the manifest, by their figures.

use crate::refusal::{Refusal, refuse_need};
use crate::state::State;
use hse_io::NoMemory;
use std::alloc::Global;

/// The greatest number of events, and of sequences.
pub(crate) const GREATEST_NUMBER: u64 = 1 << 62;

/// How many segments may be frozen.
const MOST_FROZEN: usize = 3;

/// What a batch takes beside its payload.
const BATCH_BYTES: u64 = 5;

/// What a half holds before its first batch.
const HALF_BYTES: u64 = 10;

/// A base entry without runs and stores.
const BASE_BYTES: u64 = 25;

/// A run of taken numbers in a base entry.
const RUN_BYTES: u64 = 8;

/// A store in a base entry, beside its name.
const STORE_BYTES: u64 = 15;

/// A creation, beside its name.
const CREATE_BYTES: u64 = 12;

/// A drop.
const DROP_BYTES: u64 = 17;

/// The log: how many layers are frozen, what the active one has, and its segment's sequence.
#[derive(Clone, Copy, Drop)]
pub(crate) struct Log {
    pub(crate) frozen: usize,
    pub(crate) commits: u64,
    pub(crate) charge: u64,
    sequence: u64,
}

impl Log {
    pub(crate) fn new() -> Log {
        Log {
            frozen: 0,
            commits: 0,
            charge: 0,
            sequence: 1,
        }
    }

    /// Whether the active layer has commits and may not be frozen.
    pub(crate) fn is_busy(&self) -> bool {
        self.commits > 0 && (self.frozen >= MOST_FROZEN || self.sequence == GREATEST_NUMBER)
    }

    /// One commit more.
    pub(crate) fn commit(&mut self, charge: u64) {
        self.commits = self.commits.saturating_add(1);
        self.charge = self.charge.saturating_add(charge);
    }

    /// Freezes the active layer where it has commits.
    pub(crate) fn freeze(&mut self) {
        if self.commits == 0 {
            return;
        }
        self.frozen = self.frozen.saturating_add(1);
        self.sequence = self.sequence.saturating_add(1);
        self.commits = 0;
        self.charge = 0;
    }
}

/// The manifest in force: its sequence, how much of its half is used, and the numbers that creations and drops took.
#[derive(Drop)]
pub(crate) struct Manifest {
    pub(crate) sequence: u64,
    used: u64,
    taken: Vec<u64>,
}

/// How an entry comes into the manifest.
#[derive(Clone, Copy, Drop)]
pub(crate) enum Entry {
    Appended(u64),
    Rolled(u64),
}

/// What a creation of this name takes.
pub(crate) fn creation_need(name: &[u8]) -> u64 {
    BATCH_BYTES
        .saturating_add(CREATE_BYTES)
        .saturating_add(name.len() as u64)
}

/// What a drop takes.
pub(crate) fn drop_need() -> u64 {
    BATCH_BYTES + DROP_BYTES
}

impl Manifest {
    /// The manifest of a new device.
    pub(crate) fn new(alloc: Global) -> Manifest {
        Manifest {
            sequence: 1,
            used: HALF_BYTES + BATCH_BYTES + BASE_BYTES,
            taken: Vec::new(alloc),
        }
    }

    /// An equal one.
    pub(crate) fn copy(&self, alloc: Global) -> Result<Manifest, NoMemory> {
        Ok(Manifest {
            sequence: self.sequence,
            used: self.used,
            taken: Vec::from_slice(alloc, &self.taken)?,
        })
    }

    /// How an entry of this need comes into a half of this size; the state is that after it.
    pub(crate) fn plan(&self, half: u64, need: u64, after: &State) -> Result<Entry, Refusal> {
        if self.used.saturating_add(need) <= half {
            return Ok(Entry::Appended(need));
        }
        let base = self.base_need(after);
        let room = half.saturating_sub(HALF_BYTES);
        refuse_need(b"err manifest-full", base, room)?;
        if self.sequence == GREATEST_NUMBER {
            return Err(Refusal::Room(b"err manifest-full", base, room));
        }
        Ok(Entry::Rolled(base))
    }

    /// The entry of this number is there.
    pub(crate) fn enter(&mut self, entry: Entry, number: u64) -> Result<(), NoMemory> {
        self.taken.push(number)?;
        match entry {
            Entry::Appended(need) => self.used = self.used.saturating_add(need),
            Entry::Rolled(need) => {
                self.used = HALF_BYTES.saturating_add(need);
                self.sequence = self.sequence.saturating_add(1);
            }
        }
        Ok(())
    }

    /// What a base entry of this state takes, whose number is taken too.
    fn base_need(&self, after: &State) -> u64 {
        let mut need = BATCH_BYTES + BASE_BYTES;
        for store in &after.stores {
            need = need
                .saturating_add(STORE_BYTES)
                .saturating_add(store.name.len() as u64);
        }
        need.saturating_add(RUN_BYTES.saturating_mul(self.runs(after.number)))
    }

    /// In how many runs the taken numbers stand, with one more behind them.
    fn runs(&self, last: u64) -> u64 {
        let mut runs: u64 = 0;
        let mut before = 0;
        for number in &self.taken {
            if runs == 0 || *number != before {
                runs = runs.saturating_add(1);
            }
            before = number.saturating_add(1);
        }
        if runs == 0 || last != before {
            runs = runs.saturating_add(1);
        }
        runs
    }
}
