//! An empty device is made a new one.
ghost use Rattle.std.specs.Prelude.{◌≡◌, [], IfErr};
ghost use Rattle.media_disk.specs.Calls.{CallsMade};
ghost use Rattle.recovery.specs.Answers.{OpenReports};
ghost use Rattle.kvdb.specs.Opening.{AsksSize, IsOfDevice, Prepares};

use device_layout::Params;
use media_disk::Disk;
use recovery::{FormatFault, OpenFault, format};
use std::alloc::Global;

/// What an empty device is made with: 32 slots of two mebibytes, manifest halves of a quarter of one and
/// log segments of four, and at most 256 live stores.
const DEFAULT: Params = Params {
    power: 21,
    slots: 32,
    manifest: 262_144,
    log: 4_194_304,
    stores: 256,
};

/// Makes an empty device a new one with the default parameters, and leaves another one as it is.
pub(crate) fn prepare<D: Disk>(alloc: Global, disk: &mut D) -> Result<(), OpenFault>
    ensures prepared { D.tells → Prepares D.Device (D.seen disk.old) disk.old disk.new result }
    ensures asked { D.tells → (D.seen disk.old ≡ [] → ⊥)
        → AsksSize D.Device disk.old disk.new result }
    ensures fault { IfErr result IsOfDevice }
    ensures calls { CallsMade D.Device disk.old disk.new }
    ensures reports { OpenReports D.Device disk.old disk.new result }
{
    let Ok(size) = disk.size() else {
        return Err(OpenFault::Device);
    };
    if size != 0 {
        return Ok(());
    }
    match format(alloc, disk, &DEFAULT) {
        Ok(_) => Ok(()),
        Err(FormatFault::NotEmpty(_)) => Ok(()),
        Err(FormatFault::BadParams) => unreachable!(),
        Err(FormatFault::Device) => Err(OpenFault::Device),
        Err(FormatFault::NoMemory) => Err(OpenFault::NoMemory),
    }
}
