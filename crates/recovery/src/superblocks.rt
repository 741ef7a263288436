//! Reads the superblock of a device.
ghost use Rattle.std.specs.Prelude.{◌≡◌, ◌≤◌, ℕ, List, length, IfOk};
ghost use Rattle.media_disk.specs.Calls.{CallsMade, OnlyReads};
ghost use Rattle.gate_log.specs.Answers.{FrontReports};
ghost use Rattle.hse_rows.specs.machine.Sizes.{device_block};
ghost use Rattle.device_layout.specs.Layouts.{IsGood, size_of_device};
ghost use Rattle.recovery.specs.Answers.{IsLayoutRead, IsQuiet, OpenReports};
ghost use Rattle.recovery.specs.Image.{block_in};
ghost use Rattle.recovery.specs.Keeps.{Keeps};

use crate::{OpenFault, Region};
use device_layout::{Layout, LayoutFault, SUPERBLOCK};
use gate_log::FrontFault;
use media_disk::Disk;
use std::alloc::Global;

/// The layout that a device of this size says in its first block.
fn layout_of_block(size: u64, block: &[u8]) -> Result<Layout, OpenFault>
    requires block { length block.now ≡ device_block }
    requires size { device_block ≤ size }
    ensures layout { (image : List ℕ) → length image ≡ size → block_in image ≡ block.now
        → IsLayoutRead image result }
    ensures size { IfOk result (λ layout. size_of_device layout ≡ size) }
    ensures good { IfOk result IsGood }
    ensures quiet { IsQuiet result }
{
    match Layout::read(size, block) {
        Ok(layout) => Ok(layout),
        Err(LayoutFault::Damaged(place)) => Err(OpenFault::NotFormed(Region::Super, place)),
        Err(LayoutFault::Version(version)) => Err(OpenFault::Version(version)),
    }
}

/// The first block of a device.
fn read_block<D: Disk>(alloc: Global, disk: &mut D) -> Result<Vec<u8>, FrontFault>
    requires { device_block ≤ D.extent disk.old }
    ensures block { D.tells → IfOk result (λ block. block.items ≡ block_in (D.seen disk.old)) }
    ensures long { IfOk result (λ block. length block.items ≡ device_block) }
    ensures calls { CallsMade D.Device disk.old disk.new }
    ensures reports { FrontReports D.Device disk.old disk.new result }
    ensures reads { OnlyReads D.Device disk.old disk.new }
{
    let mut block = vec![in alloc; 0; SUPERBLOCK as usize]?;
    disk.read(0, &mut block)?;
    Ok(block)
}

/// The layout of a device, by its superblock.
pub(crate) fn read_layout<D: Disk>(alloc: Global, disk: &mut D) -> Result<Layout, OpenFault>
    ensures layout { D.tells → IsLayoutRead (D.seen disk.old) result }
    ensures good { IfOk result IsGood }
    ensures inside { IfOk result (λ layout. size_of_device layout ≤ D.extent disk.new) }
    ensures calls { CallsMade D.Device disk.old disk.new }
    ensures reports { OpenReports D.Device disk.old disk.new result }
    ensures keeps { Keeps D.Device disk.old disk.new }
    ensures pending { D.tells → D.pending disk.new ≡ D.pending disk.old }
{
    let Ok(size) = disk.size() else {
        return Err(OpenFault::Device);
    };
    if size < SUPERBLOCK {
        return Err(OpenFault::NotFormed(Region::Super, size));
    }
    let block = match read_block(alloc, disk) {
        Ok(block) => block,
        Err(FrontFault::Device) => return Err(OpenFault::Device),
        Err(FrontFault::NoMemory) => return Err(OpenFault::NoMemory),
    };
    layout_of_block(size, &block)
}
