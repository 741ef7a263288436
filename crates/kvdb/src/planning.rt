//! A creation or a drop is planned.
ghost use Rattle.std.specs.Prelude.{◌<◌, ◌^◌, length};
ghost use Rattle.manifest.specs.Entries.{entry_as};
ghost use Rattle.manifest.specs.Text.{base_text, entry_text};
ghost use Rattle.manifest.specs.Views.{metadata_as};
ghost use Rattle.wal.specs.Waits.{charge_in};
ghost use Rattle.kvdb.specs.Entering.{PlansIn, SidePlans};

use crate::engine::Kvdb;
use crate::side::Side;
use crate::turn::TurnFault;
use back::{Back, EntryPlan, PlanFault};
use manifest::{Base, Entry};
use media_disk::Disk;
use std::alloc::Global;

/// Plans an entry behind commits of this charge.
fn plan_in<D: Disk>(
    alloc: Global,
    back: &Back<D>,
    charge: u64,
    entry: &Entry,
    base: &Base,
) -> Result<EntryPlan, TurnFault>
    requires short { length (entry_text (entry_as entry.now)) < 2 ^ 32 }
    requires short_base { length (base_text (metadata_as base.now)) < 2 ^ 32 }
    ensures { PlansIn back.now charge (entry_text (entry_as entry.now))
        (base_text (metadata_as base.now)) result }
{
    if charge > back.log.room() {
        return Err(TurnFault::NoMemory);
    }
    match back.plan_entry(alloc, entry, base) {
        Ok(plan) => Ok(plan),
        Err(PlanFault::Full(_, _)) => unreachable!(),
        Err(PlanFault::ManifestFull(need, room)) => Err(TurnFault::ManifestFull(need, room)),
        Err(PlanFault::NoMemory) => Err(TurnFault::NoMemory),
    }
}

impl<D: Disk> Kvdb<D> {
    /// Plans an entry behind the commits that wait, where the device side is in. No engine that stands for a
    /// machine has an entry or a base that is too long, nor commits that have no room.
    pub(crate) fn plan_of(
        &self,
        alloc: Global,
        entry: &Entry,
        base: &Base,
    ) -> Result<EntryPlan, TurnFault>
        ensures { SidePlans self.now.side (charge_in self.now.state.waiting)
            (entry_text (entry_as entry.now)) (base_text (metadata_as base.now)) result }
    {
        let charge = self.state.waiting_charge();
        match &self.side {
            Side::Out(kind, _) => Err(TurnFault::Busy(*kind)),
            Side::In(back) => {
                if !entry.is_short() {
                    return Err(TurnFault::NoMemory);
                }
                if !base.is_short() {
                    return Err(TurnFault::NoMemory);
                }
                plan_in(alloc, back, charge, entry, base)
            }
        }
    }
}
