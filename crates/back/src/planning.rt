//! Plans creations and drops.
ghost use Rattle.std.specs.Prelude.{◌<◌, ◌^◌, length, IfOk};
ghost use Rattle.manifest.specs.Entries.{entry_as};
ghost use Rattle.manifest.specs.Text.{base_text, entry_text};
ghost use Rattle.manifest.specs.Views.{metadata_as};
ghost use Rattle.back.specs.Plans.{HasRoomFor, IsPlan};

use crate::{Back, EntryPlan, PlanFault};
use manifest::{Base, Entry, encode_base, encode_entry};
use media_disk::Disk;
use std::alloc::Global;

impl<D: Disk> Back<D> {
    /// Plans a creation or a drop, after which the stores are those of the base: the entry is
    /// logged where the half in force has room for it, and else the manifest rolls to the base. It
    /// takes all the memory that the turn needs and makes no device call. `ManifestFull` comes only
    /// where neither has room, or no greater sequence is left for a roll; out of memory may come in
    /// its place. `Full` never comes.
    ///
    /// The conditions: the entry and the base have fewer than 2^32 bytes.
    pub fn plan_entry(
        &self,
        alloc: Global,
        entry: &Entry,
        after: &Base,
    ) -> Result<EntryPlan, PlanFault>
        requires short { length (entry_text (entry_as entry.now)) < 2 ^ 32 }
        requires short_base { length (base_text (metadata_as after.now)) < 2 ^ 32 }
        ensures plan { IsPlan self.now.manifest (entry_text (entry_as entry.now))
            (base_text (metadata_as after.now)) result }
        ensures room { IfOk result (λ plan. HasRoomFor self.now.manifest plan) }
    {
        let batch = encode_entry(alloc, entry)?;
        if self.manifest.fits(&batch) {
            return Ok(EntryPlan::Log(batch));
        }
        let base = encode_base(alloc, after)?;
        if self.manifest.can_roll(&base) {
            return Ok(EntryPlan::Roll(base));
        }
        Err(PlanFault::ManifestFull(base.need(), self.manifest.room_of_half()))
    }
}
