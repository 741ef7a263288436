//! The commits that wait for the device.
ghost use Rattle.std.specs.Prelude.{◌≡◌, ◌+◌, ◌^◌, ◌<◌, ◌≤◌, length, IfOk, OnOk, OnErr};
ghost use Rattle.hse_fields.specs.LogText.{entry_text};
ghost use Rattle.wal.specs.Charges.{entries_charge, HasEntries};
ghost use Rattle.wal.specs.Logged.{entry_with};
ghost use Rattle.wal.specs.Waits.{none_waits, with_entry, batch_of, charge_in};

use crate::encode::put_numbered;
use gate_log::Batch;
use hse_io::NoMemory;
use hse_rows::WriteSet;
use std::alloc::Global;
use std::marker::Model;

/// What stands before the entries: the length of the frame, and the count of the commits.
const HEAD: usize = 8;

/// What an entry takes of a segment's room beside its bytes.
const FRAME: u64 = 32;

/// The commits that wait for the device, encoded as they come. Their batch is framed in the same
/// bytes, so that it copies nothing.
#[derive(Drop)]
pub struct Waiting {
    bytes: Vec<u8>,
    count: u32,
}

impl Model for Waiting {
    ghost use Rattle.wal.specs.Waits.{WaitingState, waiting_in, AreWaiting};

    ghost Value = { WaitingState };

    ghost view = { waiting_in };

    ghost invariant = { AreWaiting };
}

impl Waiting {
    /// None waits.
    pub fn new(alloc: Global) -> Result<Waiting, NoMemory>
        ensures { IfOk result (λ waiting. waiting ≡ none_waits) }
    {
        let mut bytes = Vec::with_capacity(alloc, HEAD + 1)?;
        bytes.extend_from_slice(&[0; HEAD])?;
        Ok(Waiting { bytes, count: 0 })
    }

    /// How many wait. It takes no memory.
    pub fn len(&self) -> u64
        ensures { result ≡ self.now.count }
    {
        self.count as u64
    }

    /// What they take of a segment's room, in bytes. It takes no memory.
    pub fn charge(&self) -> u64
        ensures { result ≡ charge_in self.now }
    {
        (self.bytes.len() - HEAD) as u64 + FRAME * self.count as u64
    }

    /// One commit more, behind the others. Out of memory, all stay as they were.
    ///
    /// The condition: all entries together have fewer than 2^32 - 8 bytes.
    pub fn add(&mut self, alloc: Global, number: u64, writes: &WriteSet) -> Result<(), NoMemory>
        requires { 8 + length self.old.text + length (entry_text (entry_with number writes.now)) < 2 ^ 32 }
        ensures added { OnOk result (self.new ≡ with_entry self.old (entry_with number writes.now)) }
        ensures unchanged { OnErr result (self.new ≡ self.old) }
    {
        let mut entry = Vec::new(alloc);
        put_numbered(&mut entry, number, writes)?;
        self.bytes.reserve(entry.len() + 1)?;
        let Ok(()) = self.bytes.extend_from_slice(&entry) else {
            unreachable!();
        };
        self.count += 1;
        Ok(())
    }

    /// The batch of all that wait, in which nothing is copied. It takes no memory.
    pub fn into_batch(self) -> Batch
        ensures batch { result ≡ batch_of self }
        ensures charged { 1 ≤ self.count
            → HasEntries result × (entries_charge result ≡ charge_in self) }
    {
        let mut bytes = self.bytes;
        bytes[4..HEAD].copy_from_slice(&self.count.to_be_bytes());
        Batch::framed_in(bytes)
    }
}
