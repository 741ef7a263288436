//! Reads the manifest of a device.
ghost use Rattle.std.specs.Prelude.{◌≡◌, ◌≤◌, ◌<◌, ℕ, List, Ok, IfOk};
ghost use Rattle.hse_io.specs.Faults.{HasCause};
ghost use Rattle.media_disk.specs.Calls.{CallsMade, OnlyReads};
ghost use Rattle.gate_log.specs.Places.{region_of, LiesIn};
ghost use Rattle.gate_log.specs.Reading.{EndsInside, IsFront};
ghost use Rattle.device_layout.specs.Layouts.{IsGood, half_of, size_of_device};
ghost use Rattle.manifest.specs.Half.{half_in_force, head_in};
ghost use Rattle.manifest.specs.HeadViews.{head_as};
ghost use Rattle.manifest.specs.Loading.{IsHalf, IsLoad, IsQuiet, LoadReports};
ghost use Rattle.manifest.specs.Metadata.{AreApart};
ghost use Rattle.manifest.specs.Views.{metadata_as};

use crate::batches::base_of_batches;
use crate::heads::{HEAD_SIZE, Head, half_of_heads, head_of_bytes};
use crate::{LoadFault, Loaded, Manifest};
use device_layout::Layout;
use gate_log::{End, FIRST_GATE, Front, FrontFault, Region, read_front};
use media_disk::{Disk, Failed};
use std::alloc::Global;

/// The head of a half.
fn read_head<D: Disk>(disk: &mut D, region: &Region) -> Result<Head, Failed>
    requires inside { LiesIn region.now (D.extent disk.old) }
    requires size { 10 ≤ region.now.size }
    ensures head { D.tells
        → IfOk result (λ head. head_as head ≡ head_in region.now (D.seen disk.old)) }
    ensures calls { CallsMade D.Device disk.old disk.new }
    ensures cause { HasCause (D.faults disk.old) (D.faults disk.new) result }
    ensures reads { OnlyReads D.Device disk.old disk.new }
{
    let mut bytes = [0; HEAD_SIZE];
    disk.read(region.at, &mut bytes)?;
    Ok(head_of_bytes(&bytes))
}

/// The half in force.
fn read_half<D: Disk>(disk: &mut D, layout: &Layout) -> Result<u8, LoadFault>
    requires good { IsGood layout.now }
    requires inside { size_of_device layout.now ≤ D.extent disk.old }
    ensures half { D.tells → IsHalf layout.now (D.seen disk.old) result }
    ensures one { IfOk result (λ half. half < 2) }
    ensures calls { CallsMade D.Device disk.old disk.new }
    ensures reports { LoadReports D.Device disk.old disk.new result }
    ensures reads { OnlyReads D.Device disk.old disk.new }
{
    let Ok(first) = read_head(disk, &layout.half(0)) else {
        return Err(LoadFault::Device);
    };
    let Ok(second) = read_head(disk, &layout.half(1)) else {
        return Err(LoadFault::Device);
    };
    match half_of_heads(first, second) {
        Ok(half) => Ok(half),
        Err((half, place)) => Err(LoadFault::Damaged(half, place)),
    }
}

/// What the front of the half in force says.
fn loaded_in(
    alloc: Global,
    layout: Layout,
    half: u8,
    front: Option<Front>,
) -> Result<Loaded, LoadFault>
    requires good { IsGood layout }
    requires one { half < 2 }
    requires inside { EndsInside layout.manifest front }
    ensures loaded { (image : List ℕ) → half_in_force layout image ≡ Ok half
        → IsFront (region_of (half_of layout half) image) front → IsLoad layout image result }
    ensures apart { IfOk result (λ loaded. AreApart (metadata_as loaded.base)) }
    ensures layout { IfOk result (λ loaded. loaded.manifest.layout ≡ layout) }
    ensures quiet { IsQuiet result }
{
    let Some(front) = front else {
        return Err(LoadFault::Damaged(half, 0));
    };
    let base = base_of_batches(alloc, half, layout.stores, &front.batches)?;
    match front.end {
        End::CutOff(place) => Err(LoadFault::Damaged(half, place)),
        End::Closed(tail) => {
            let Some(base) = base else {
                return Err(LoadFault::Damaged(half, FIRST_GATE));
            };
            let manifest = Manifest {
                layout,
                half,
                sequence: front.sequence,
                tail,
            };
            Ok(Loaded { manifest, base })
        }
    }
}

/// What a device's manifest says, and where it is. `Damaged` has the half and the place in it of
/// the first field that the format refuses: the sequence of an open head that the half may not
/// have, the head of half 0 where no half has an open head and an open first gate, the first field
/// of an entry that is refused, or the length of a batch that does not lie inside the half. `Device`
/// comes only where the device failed. Nothing is written.
///
/// The conditions: the layout is good, and the device is as large as it says.
pub fn load<D: Disk>(alloc: Global, disk: &mut D, layout: &Layout) -> Result<Loaded, LoadFault>
    requires good { IsGood layout.now }
    requires inside { size_of_device layout.now ≤ D.extent disk.old }

    ensures loaded { D.tells → IsLoad layout.now (D.seen disk.old) result }
    // Whatever the device tells.
    ensures apart { IfOk result (λ loaded. AreApart (metadata_as loaded.base)) }
    ensures layout { IfOk result (λ loaded. loaded.manifest.layout ≡ layout.now) }
    ensures calls { CallsMade D.Device disk.old disk.new }
    ensures reports { LoadReports D.Device disk.old disk.new result }
    ensures reads { OnlyReads D.Device disk.old disk.new }
{
    let half = read_half(disk, layout)?;
    match read_front(alloc, disk, &layout.half(half)) {
        Ok(front) => loaded_in(alloc, *layout, half, front),
        Err(FrontFault::Device) => Err(LoadFault::Device),
        Err(FrontFault::NoMemory) => Err(LoadFault::NoMemory),
    }
}
