//! Reads a device again.
ghost use Rattle.std.specs.Prelude.{◌≡◌, ◌≤◌, ◌+◌, ◌^◌, ℕ, List, Ok, IfOk};
ghost use Rattle.media_disk.specs.Calls.{CallsMade};
ghost use Rattle.device_layout.specs.Layouts.{IsGood, size_of_device};
ghost use Rattle.manifest.specs.Loading.{IsLoad};
ghost use Rattle.manifest.specs.Views.{metadata_as};
ghost use Rattle.manifest.specs.Metadata.{AreApart};
ghost use Rattle.recovery.specs.Answers.{IsLogRead, IsQuiet, IsRecovery, HasParts, IsSoundLog, OpenReports};
ghost use Rattle.recovery.specs.Image.{HasLayout};
ghost use Rattle.recovery.specs.Keeps.{IsBarrier, Keeps};

use crate::logs::{FIRST, ReadLog, read_log};
use crate::superblocks::read_layout;
use crate::views::view_over;
use crate::{OpenFault, Recovered, Region};
use device_layout::Layout;
use manifest::{LoadFault, Loaded, load};
use media_disk::Disk;
use std::alloc::Global;
use view::layers_take_writes;
use wal::{Ring, first_free};

/// What was read of a device, where taken numbers leave no gap behind its log, and the log names no
/// store id above the last number.
fn recovered_of(
    alloc: Global,
    layout: Layout,
    loaded: Loaded,
    log: ReadLog,
    moment: u64,
) -> Result<Recovered, OpenFault>
    requires sound { IsSoundLog layout.log log }
    requires apart { AreApart (metadata_as loaded.base) }
    requires good { IsGood layout }
    requires manifest { loaded.manifest.layout ≡ layout }
    ensures recovered { (image : List ℕ) → HasLayout image layout → IsLoad layout image (Ok loaded)
        → IsLogRead layout image (metadata_as loaded.base) (Ok log) → IsRecovery image result }
    ensures parts { IfOk result HasParts }
    ensures given { IfOk result (λ r. (r.layout ≡ layout) × (r.moment ≡ moment)) }
    ensures quiet { IsQuiet result }
{
    layers_take_writes();
    let (next, behind) = first_free(log.end.next, &loaded.base.taken);
    if !behind.is_empty() {
        return Err(OpenFault::NotFormed(Region::Manifest(loaded.manifest.half), 0));
    }
    let number = next.saturating_sub(1);
    if log.named > number {
        return Err(OpenFault::NotFormed(Region::Log(FIRST as u8), 0));
    }
    let place = Ring::of(layout.segment(FIRST as u8), log.end);
    let Ok(view) = view_over(alloc, &loaded.base, number, log.rows) else {
        return Err(OpenFault::NoMemory);
    };
    Ok(Recovered {
        view,
        layout,
        log: place,
        manifest: loaded.manifest,
        base: loaded.base,
        number,
        moment,
    })
}

/// What a device of many stores holds: a barrier first, and then its superblock, its manifest and its
/// log. On a formed image it gives exactly what is loaded of it. `NotFormed` has the part and the
/// place of the first field that the format refuses, in that order, and `Version` comes where the
/// superblock's text is right and its version is another one. `Device` comes only where the device
/// failed. Nothing is written; after `Ok` nothing is pending, and since the barrier's moment no crash
/// leaves anything else.
pub fn recover<D: Disk>(alloc: Global, disk: &mut D) -> Result<Recovered, OpenFault>
    ensures recovered { D.tells → IsRecovery (D.seen disk.old) result }
    ensures parts { IfOk result HasParts }
    ensures inside { IfOk result (λ r. size_of_device r.layout ≤ D.extent disk.new) }
    ensures calls { CallsMade D.Device disk.old disk.new }
    ensures reports { OpenReports D.Device disk.old disk.new result }
    ensures keeps { Keeps D.Device disk.old disk.new }
    ensures barrier { IfOk result (λ r. IsBarrier D.Device disk.old disk.new r.moment) }
{
    let Ok(()) = disk.sync() else {
        return Err(OpenFault::Device);
    };
    let moment = disk.clock();
    let layout = read_layout(alloc, disk)?;
    let loaded = match load(alloc, disk, &layout) {
        Ok(loaded) => loaded,
        Err(LoadFault::Damaged(half, place)) => {
            return Err(OpenFault::NotFormed(Region::Manifest(half), place));
        }
        Err(LoadFault::Device) => return Err(OpenFault::Device),
        Err(LoadFault::NoMemory) => return Err(OpenFault::NoMemory),
    };
    let log = read_log(alloc, disk, layout, &loaded.base)?;
    recovered_of(alloc, layout, loaded, log, moment)
}
