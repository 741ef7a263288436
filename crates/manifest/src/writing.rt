//! Adds entries to the manifest.
ghost use Rattle.std.specs.Prelude.{◌≡◌, ◌≤◌, ◌-◌, ◌↔◌, IsTrue, nat_le, [], None, Some, OnOk};
ghost use Rattle.media_disk.specs.Calls.{CallsMade};
ghost use Rattle.media_disk.specs.Content.{Torn};
ghost use Rattle.gate_log.specs.Places.{need_of};
ghost use Rattle.device_layout.specs.Layouts.{half_of, size_of_device};
ghost use Rattle.manifest.specs.Loading.{HoldsAt};
ghost use Rattle.manifest.specs.Metadata.{Metadata};
ghost use Rattle.manifest.specs.Reading.{payload_of};
ghost use Rattle.manifest.specs.Writing.{room_in, room_of_half, IsLogAnswer, IsRollAnswer, IsRollFull, WriteReports, HalvesApart, LeavesHalf, OldOrLogged, OldOrRolled};

use crate::heads::{GREATEST_SEQUENCE, HEAD_SIZE};
use crate::{Manifest, ManifestFault};
use gate_log::{Batch, append, start};
use media_disk::Disk;

impl Manifest {
    /// The sequence of the half in force.
    pub fn sequence(&self) -> u64
        ensures { result ≡ self.now.sequence }
    {
        self.sequence
    }

    /// Whether the half in force has room for the batch.
    pub fn fits(&self, batch: &Batch) -> bool
        ensures { result ≡ nat_le (need_of batch.now) (room_in self.now) }
    {
        batch.need() <= self.layout.manifest - (self.tail.place + 1)
    }

    /// What a new half has room for, in bytes.
    pub fn room_of_half(&self) -> u64
        ensures { result ≡ room_of_half self.now.layout }
    {
        self.layout.manifest - HEAD_SIZE as u64
    }

    /// Whether the other half can be started with this base: a new half has room for it, and a
    /// greater sequence is left.
    pub fn can_roll(&self, base: &Batch) -> bool
        ensures { IsTrue result ↔ ¬ IsRollFull self.now base.now }
    {
        base.need() <= self.room_of_half() && self.sequence < GREATEST_SEQUENCE
    }

    /// Adds a creation or a drop to the half in force. It takes no memory. Whenever the device
    /// stops, the manifest says what it said before, at this place, or what it says after the
    /// entry, with the batch behind it, and nothing else of the device changes; after `Ok` nothing
    /// is pending. `ManifestFull` comes before any device call; after `Device` the manifest says
    /// either, and this place stays.
    ///
    /// The conditions: the device is as large as its layout says; this is the place of its
    /// manifest, the batch is an entry that may come next, and nothing is pending in the halves.
    pub fn log<D: Disk>(&mut self, disk: &mut D, batch: &Batch) -> Result<(), ManifestFault>
        requires inside { size_of_device self.old.layout ≤ D.extent disk.old }

        ensures answer { IsLogAnswer self.old self.new batch.now result }
        ensures calls { CallsMade D.Device disk.old disk.new }
        ensures reports { WriteReports D.Device disk.old disk.new result }
        ensures extent { D.extent disk.new ≡ D.extent disk.old }
        ensures logged { D.tells → OnOk result ((before after : Metadata)
            → HoldsAt self.old (D.seen disk.old) before
            → payload_of self.old.layout.stores (Some before) batch.now ≡ Ok after
            → HoldsAt self.new (D.seen disk.new) after) }
        ensures others { D.tells → Torn (half_of self.old.layout self.old.half).at
            self.old.layout.manifest (D.seen disk.old) (D.seen disk.new) }
        ensures durable { D.tells → OnOk result (D.pending disk.new ≡ []) }
        ensures crash { D.tells → (before after : Metadata)
            → HoldsAt self.old (D.seen disk.old) before
            → payload_of self.old.layout.stores (Some before) batch.now ≡ Ok after
            → HalvesApart self.old.layout (D.pending disk.old)
            → LeavesHalf D.Device self.old.layout self.old.half disk.old disk.new
            (OldOrLogged self.old batch.now before after) }
    {
        let half = self.layout.half(self.half);
        let mut tail = self.tail;
        append(disk, &half, &mut tail, batch)?;
        self.tail = tail;
        Ok(())
    }

    /// Starts the other half with the next sequence and this base. It takes no memory. Whenever the
    /// device stops, the manifest says what it said before, at this place, or what the base says,
    /// alone in the other half with the next sequence, and nothing else of the device changes;
    /// after `Ok` nothing is pending. `ManifestFull` comes before any device call, exactly where a
    /// new half has no room for the base or no greater sequence is left. After `Device` the manifest says either, and this place stays.
    ///
    /// The conditions: the device is as large as its layout says; this is the place of its
    /// manifest, the batch is a base, and nothing is pending in the halves.
    pub fn roll<D: Disk>(&mut self, disk: &mut D, base: &Batch) -> Result<(), ManifestFault>
        requires inside { size_of_device self.old.layout ≤ D.extent disk.old }

        ensures answer { IsRollAnswer self.old self.new base.now result }
        ensures calls { CallsMade D.Device disk.old disk.new }
        ensures reports { WriteReports D.Device disk.old disk.new result }
        ensures extent { D.extent disk.new ≡ D.extent disk.old }
        ensures rolled { D.tells → OnOk result ((before after : Metadata)
            → HoldsAt self.old (D.seen disk.old) before
            → payload_of self.old.layout.stores None base.now ≡ Ok after
            → HoldsAt self.new (D.seen disk.new) after) }
        ensures others { D.tells → Torn (half_of self.old.layout (1 - self.old.half)).at
            self.old.layout.manifest (D.seen disk.old) (D.seen disk.new) }
        ensures durable { D.tells → OnOk result (D.pending disk.new ≡ []) }
        ensures crash { D.tells → (before after : Metadata)
            → HoldsAt self.old (D.seen disk.old) before
            → payload_of self.old.layout.stores None base.now ≡ Ok after
            → HalvesApart self.old.layout (D.pending disk.old)
            → LeavesHalf D.Device self.old.layout (1 - self.old.half) disk.old disk.new
            (OldOrRolled self.old base.now before after) }
    {
        if !self.can_roll(base) {
            return Err(ManifestFault::ManifestFull(base.need(), self.room_of_half()));
        }
        let half = 1 - self.half;
        let region = self.layout.half(half);
        let sequence = self.sequence + 1;
        let Ok(mut tail) = start(disk, &region, sequence) else {
            return Err(ManifestFault::Device);
        };
        append(disk, &region, &mut tail, base)?;
        self.half = half;
        self.sequence = sequence;
        self.tail = tail;
        Ok(())
    }
}
