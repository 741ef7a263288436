//! Adds batches of commits to the log.
ghost use Rattle.std.specs.Prelude.{◌≡◌, ◌+◌, ◌-◌, ◌<◌, ◌≤◌, ◌↔◌, IsTrue, ℕ, List, [], ◌∷◌, ◌++◌, OnOk};
ghost use Rattle.media_disk.specs.Calls.{CallsMade};
ghost use Rattle.media_disk.specs.Content.{Torn};
ghost use Rattle.gate_log.specs.Crashes.{LeavesRegion, OldOrNew};
ghost use Rattle.gate_log.specs.Gates.{first_gate};
ghost use Rattle.gate_log.specs.Places.{IsApart, LiesIn};
ghost use Rattle.wal.specs.Charges.{end_size, entries_charge, HasEntries};
ghost use Rattle.wal.specs.Writing.{room_in, HasBatches, IsRingOf, IsWriteAnswer, WriteReports};

use crate::replay::END;
use crate::{Ring, SegmentEnd};
use byteorder::{BigEndian, ByteOrder};
use gate_log::{AppendFault, Batch, Region, append};
use media_disk::Disk;
use thiserror::Error;

/// Why a batch was not written.
#[derive(Clone, Copy, Debug, PartialEq, Eq, Error)]
pub enum WalFault {
    /// What the commits take, and the room that the segment has left, in bytes.
    #[error("the commits take {0} bytes and the segment has {1} left")]
    LogFull(u64, u64),
    #[error("the device failed")]
    Device,
}

/// What an entry takes of a segment's room beside its bytes.
const FRAME: u64 = 32;

/// Whether the batch has a count, of at least one commit.
fn has_entries(batch: &Batch) -> bool
    ensures { IsTrue result ↔ HasEntries batch.now }
{
    let payload = batch.payload();
    payload.len() >= 4 && BigEndian::read_u32(payload) >= 1
}

/// What the commits of a batch take of a segment's room, in bytes.
fn charge_of(batch: &Batch) -> u64
    requires { HasEntries batch.now }
    ensures { result ≡ entries_charge batch.now }
{
    let payload = batch.payload();
    let count = BigEndian::read_u32(payload);
    payload.len() as u64 - 4 + FRAME * count as u64
}

impl Ring {
    /// The place of a log whose active segment ends so, in this region.
    ///
    /// The conditions: the commits fit into the room, the batches lie inside the region, and they
    /// take no more than the commits and 9 bytes.
    pub fn of(region: Region, end: SegmentEnd) -> Ring
        requires fits { end.charges ≤ region.size - end_size }
        requires placed { end.tail.place ≤ first_gate + end.charges }
        requires inside { end.tail.place < region.size }
        ensures { IsRingOf region end result }
    {
        Ring {
            region,
            sequence: end.sequence,
            tail: end.tail,
            charges: end.charges,
        }
    }

    /// What the active segment has left of its room, in bytes: its region's size less 64, less what
    /// its commits take.
    pub fn room(&self) -> u64
        ensures { result ≡ room_in self.now }
    {
        self.region.size.saturating_sub(END) - self.charges
    }

    /// Whether the batch has a commit, and the active segment has room for its commits.
    pub fn has_room_for(&self, batch: &Batch) -> bool
        ensures { IsTrue result
            ↔ HasEntries batch.now × (entries_charge batch.now ≤ room_in self.now) }
    {
        has_entries(batch) && charge_of(batch) <= self.room()
    }

    /// Adds a batch of commits to the active segment. It takes no memory. Whenever the device
    /// stops, the segment holds its old batches, or the old ones and this one, and nothing else of
    /// the device changes; after `Ok` nothing is pending. `LogFull` comes before any device call,
    /// exactly where the commits take more than the room. After `Device` the segment holds either,
    /// and this place stays.
    ///
    /// The conditions: the region lies inside the device, this is the place of its log, the batch
    /// has a commit, and nothing is pending in the region.
    pub fn write_batch<D: Disk>(&mut self, disk: &mut D, batch: &Batch) -> Result<(), WalFault>
        requires inside { LiesIn self.old.region (D.extent disk.old) }
        requires entries { HasEntries batch.now }

        ensures answer { IsWriteAnswer self.old self.new batch.now result }
        ensures calls { CallsMade D.Device disk.old disk.new }
        ensures reports { WriteReports D.Device disk.old disk.new result }
        ensures extent { D.extent disk.new ≡ D.extent disk.old }
        ensures written { D.tells → OnOk result ((payloads : List (List ℕ))
            → HasBatches self.old (D.seen disk.old) payloads
            → HasBatches self.new (D.seen disk.new) (payloads ++ batch.now ∷ [])) }
        ensures others { D.tells → Torn self.old.region.at self.old.region.size
            (D.seen disk.old) (D.seen disk.new) }
        ensures durable { D.tells → OnOk result (D.pending disk.new ≡ []) }
        ensures crash { D.tells → (payloads : List (List ℕ))
            → HasBatches self.old (D.seen disk.old) payloads
            → IsApart self.old.region (D.pending disk.old)
            → LeavesRegion D.Device self.old.region disk.old disk.new
            (OldOrNew self.old.sequence payloads batch.now) }
    {
        let need = charge_of(batch);
        let room = self.room();
        if room < need {
            return Err(WalFault::LogFull(need, room));
        }
        let mut tail = self.tail;
        match append(disk, &self.region, &mut tail, batch) {
            Ok(()) => (),
            Err(AppendFault::Device) => return Err(WalFault::Device),
            Err(AppendFault::Full(_, _)) => unreachable!(),
        }
        self.charges += need;
        self.tail = tail;
        Ok(())
    }
}
