//! Formats a device.
ghost use Rattle.std.specs.Prelude.{◌≡◌, ◌≤◌, [], replicate, IfOk, OnOk};
ghost use Rattle.hse_io.specs.Faults.{HasCause, next_count};
ghost use Rattle.media_disk.specs.Calls.{CallsMade};
ghost use Rattle.manifest.specs.Text.{base_text};
ghost use Rattle.recovery.specs.DeviceText.{device_text};
ghost use Rattle.recovery.specs.Formatting.{first_loaded, first_metadata, first_state, layout_of, FormatReports, IsAnswerOn, IsFormatAnswer, StopsWell};
ghost use Rattle.recovery.specs.Image.{IsLoaded};
ghost use Rattle.recovery.specs.Stored.{Stores};

use crate::FormatFault;
use crate::forming::form;
use device_layout::{Layout, Params};
use gate_log::Batch;
use hse_io::NoMemory;
use manifest::{Base, Entry, encode_entry};
use media_disk::{Disk, Failed};
use std::alloc::Global;

/// The batch of the first base.
fn first_base(alloc: Global) -> Result<Batch, NoMemory>
    ensures { IfOk result (λ batch. batch ≡ base_text first_metadata) }
{
    let base = Base {
        horizon: 0,
        first: 1,
        taken: Vec::new(alloc),
        stores: Vec::new(alloc),
    };
    encode_entry(alloc, &Entry::Base(base))
}

/// Gives an empty device its size, and makes that safe.
fn give_size<D: Disk>(disk: &mut D, size: u64) -> Result<(), Failed>
    requires empty { D.extent disk.old ≡ 0 }
    requires some { 1 ≤ size }
    ensures calls { CallsMade D.Device disk.old disk.new }
    ensures cause { HasCause (D.faults disk.old) (D.faults disk.new) result }
    ensures none { D.tells → D.seen disk.old ≡ [] }
    ensures extent { OnOk result (D.extent disk.new ≡ size) }
    ensures zeros { D.tells → OnOk result (D.seen disk.new ≡ replicate size 0) }
    ensures durable { D.tells → OnOk result (D.pending disk.new ≡ []) }
    ensures clock { D.clock disk.new ≤ next_count (next_count (D.clock disk.old)) }
    ensures ended { OnOk result
        (D.clock disk.new ≡ next_count (next_count (D.clock disk.old))) }
{
    disk.set_size(size)?;
    disk.sync()
}

/// Makes an empty device one of these sizes, with no store and the number 0, and gives its size in
/// bytes. `BadParams` comes exactly where no device has such sizes, and before any device call.
/// `NotEmpty` comes exactly where the device has bytes, with how many, and nothing is written then.
/// `Device` comes only where the device failed, and `NoMemory` before anything is written. After `Ok`
/// nothing is pending.
///
/// Formatting that is stopped may leave any bytes until the size is safe, which the third device
/// call makes it. From then on, also where a later call fails, it leaves a new device, one without a
/// superblock, or one without a manifest: the superblock's gate is opened last.
pub fn format<D: Disk>(alloc: Global, disk: &mut D, params: &Params) -> Result<u64, FormatFault>
    ensures answer { IsFormatAnswer params.now (D.extent disk.new) result }
    ensures told { D.tells → IsAnswerOn (D.seen disk.old) result }
    ensures formed { D.tells
        → OnOk result (IsLoaded (D.seen disk.new) (first_loaded (layout_of params.now))) }
    ensures bytes { D.tells
        → OnOk result (D.seen disk.new ≡ device_text (layout_of params.now)) }
    ensures stored { D.tells → OnOk result (Stores (D.seen disk.new) first_state) }
    ensures calls { CallsMade D.Device disk.old disk.new }
    ensures reports { FormatReports D.Device disk.old disk.new result }
    ensures durable { D.tells → OnOk result (D.pending disk.new ≡ []) }
    ensures stopped { D.tells → StopsWell D.Device params.now disk.old disk.new result }
{
    let Some(layout) = Layout::of(*params) else {
        return Err(FormatFault::BadParams);
    };
    let Ok(held) = disk.size() else {
        return Err(FormatFault::Device);
    };
    if held != 0 {
        return Err(FormatFault::NotEmpty(held));
    }
    let Ok(block) = layout.superblock(alloc) else {
        return Err(FormatFault::NoMemory);
    };
    let Ok(base) = first_base(alloc) else {
        return Err(FormatFault::NoMemory);
    };
    let size = layout.size();
    let Ok(()) = give_size(disk, size) else {
        return Err(FormatFault::Device);
    };
    let Ok(()) = form(disk, layout, &block, &base) else {
        return Err(FormatFault::Device);
    };
    Ok(size)
}
