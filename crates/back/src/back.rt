//! The device side.
ghost use Rattle.std.specs.Prelude.{◌≤◌};
ghost use Rattle.gate_log.specs.Places.{LiesIn};
ghost use Rattle.device_layout.specs.Layouts.{size_of_device};

use device_layout::Layout;
use manifest::Manifest;
use media_disk::Disk;
use wal::Ring;

/// The device side: a device, its layout, and the places of its log and its manifest. It is made of
/// what `recover` gave for this device.
#[derive(Drop)]
pub struct Back<D: Disk> {
    pub disk: D,
    pub layout: Layout,
    pub log: Ring,
    pub manifest: Manifest,
    ghost halves: { size_of_device manifest.layout ≤ D.extent disk },
    ghost segment: { LiesIn log.region (D.extent disk) },
}
