//! Writes the parts of a new device, its superblock's gate last.
ghost use Rattle.std.specs.Prelude.{◌≡◌, ◌+◌, ◌≤◌, ℕ, List, [], ◌∷◌, length, replicate, IfOk, OnOk};
ghost use Rattle.hse_io.specs.Faults.{HasCause};
ghost use Rattle.media_disk.specs.Calls.{CallsMade};
ghost use Rattle.media_disk.specs.Content.{put_at, Torn};
ghost use Rattle.media_disk.specs.Leaves.{LeavesOnly};
ghost use Rattle.gate_log.specs.Framed.{framed};
ghost use Rattle.gate_log.specs.Gates.{first_gate, open_gate, started_text};
ghost use Rattle.hse_rows.specs.machine.Sizes.{device_block};
ghost use Rattle.device_layout.specs.Layouts.{IsGood, half_of, params_of, size_of_device};
ghost use Rattle.device_layout.specs.Superblock.{IsSuperblock};
ghost use Rattle.manifest.specs.Text.{base_text};
ghost use Rattle.recovery.specs.DeviceText.{device_text};
ghost use Rattle.recovery.specs.Formatting.{first_loaded, first_metadata, IsBegun, IsBlank, IsFilled, IsStopped};
ghost use Rattle.recovery.specs.Image.{IsLoaded, log_region};

use crate::logs::FIRST;
use device_layout::Layout;
use gate_log::{AppendFault, Batch, OPEN_GATE, Tail, append, start};
use manifest::first_bases_are_in_force;
use media_disk::{Disk, Failed};

/// Writes the superblock, and starts half 1 of the manifest with the sequence 1.
fn begin<D: Disk>(disk: &mut D, layout: Layout, block: &[u8]) -> Result<Tail, Failed>
    requires good { IsGood layout }
    requires inside { size_of_device layout ≤ D.extent disk.old }
    requires block { length block.now ≡ device_block }
    ensures tail { IfOk result (λ tail. tail.place ≡ first_gate) }
    ensures calls { CallsMade D.Device disk.old disk.new }
    ensures cause { HasCause (D.faults disk.old) (D.faults disk.new) result }
    ensures extent { D.extent disk.new ≡ D.extent disk.old }
    ensures begun { D.tells → IsBlank layout (D.seen disk.old)
        → OnOk result (IsBegun layout block.now [] (D.seen disk.new)) }
    ensures bytes { D.tells → OnOk result (D.seen disk.new
        ≡ put_at (put_at (D.seen disk.old) 0 block.now) (half_of layout 1).at (started_text 1)) }
    ensures durable { D.tells → OnOk result (D.pending disk.new ≡ []) }
    ensures crash { D.tells → IsBlank layout (D.seen disk.old) → D.pending disk.old ≡ []
        → LeavesOnly D.Device disk.old disk.new (IsStopped layout) }
{
    first_bases_are_in_force();
    disk.write(0, block)?;
    start(disk, &layout.half(1), FIRST)
}

/// Adds the first base to the manifest, and starts segment 1 of the log with the sequence 1.
fn fill<D: Disk>(disk: &mut D, layout: Layout, tail: Tail, base: &Batch) -> Result<(), Failed>
    requires good { IsGood layout }
    requires inside { size_of_device layout ≤ D.extent disk.old }
    requires tail { tail.place ≡ first_gate }
    requires base { base.now ≡ base_text first_metadata }
    ensures calls { CallsMade D.Device disk.old disk.new }
    ensures cause { HasCause (D.faults disk.old) (D.faults disk.new) result }
    ensures extent { D.extent disk.new ≡ D.extent disk.old }
    ensures filled { D.tells → (block : List ℕ) → IsBegun layout block [] (D.seen disk.old)
        → OnOk result (IsFilled layout block base.now (D.seen disk.new)) }
    ensures bytes { D.tells → OnOk result (D.seen disk.new ≡ put_at
        (put_at (D.seen disk.old) ((half_of layout 1).at + first_gate) (open_gate ∷ framed base.now))
        (log_region layout).at (started_text 1)) }
    ensures durable { D.tells → OnOk result (D.pending disk.new ≡ []) }
    ensures crash { D.tells → (block : List ℕ) → IsSuperblock 0 (params_of layout) block
        → IsBegun layout block [] (D.seen disk.old) → D.pending disk.old ≡ []
        → LeavesOnly D.Device disk.old disk.new (IsStopped layout) }
{
    let mut tail = tail;
    match append(disk, &layout.half(1), &mut tail, base) {
        Ok(()) => (),
        Err(AppendFault::Device) => return Err(Failed),
        Err(AppendFault::Full(_, _)) => unreachable!(),
    }
    start(disk, &layout.segment(FIRST as u8), FIRST)?;
    Ok(())
}

/// Opens the superblock's gate.
fn open<D: Disk>(disk: &mut D) -> Result<(), Failed>
    requires { 1 ≤ D.extent disk.old }
    ensures calls { CallsMade D.Device disk.old disk.new }
    ensures cause { HasCause (D.faults disk.old) (D.faults disk.new) result }
    ensures extent { D.extent disk.new ≡ D.extent disk.old }
    ensures opened { D.tells
        → OnOk result (D.seen disk.new ≡ put_at (D.seen disk.old) 0 (open_gate ∷ [])) }
    ensures durable { D.tells → OnOk result (D.pending disk.new ≡ []) }
    ensures crash { D.tells → D.pending disk.old ≡ []
        → LeavesOnly D.Device disk.old disk.new (Torn 0 1 (D.seen disk.old)) }
{
    disk.write(0, &[OPEN_GATE])?;
    disk.sync()
}

/// Makes a device whose halves are closed a new one. Whenever it stops since, it is refused at its
/// superblock's gate, or its manifest is at its first head, or it is the new device.
pub(crate) fn form<D: Disk>(
    disk: &mut D,
    layout: Layout,
    block: &[u8],
    base: &Batch,
) -> Result<(), Failed>
    requires good { IsGood layout }
    requires inside { size_of_device layout ≤ D.extent disk.old }
    requires block { IsSuperblock 0 (params_of layout) block.now }
    requires base { base.now ≡ base_text first_metadata }
    ensures calls { CallsMade D.Device disk.old disk.new }
    ensures cause { HasCause (D.faults disk.old) (D.faults disk.new) result }
    ensures extent { D.extent disk.new ≡ D.extent disk.old }
    ensures formed { D.tells → IsBlank layout (D.seen disk.old)
        → OnOk result (IsLoaded (D.seen disk.new) (first_loaded layout)) }
    ensures bytes { D.tells → D.seen disk.old ≡ replicate (size_of_device layout) 0
        → OnOk result (D.seen disk.new ≡ device_text layout) }
    ensures durable { D.tells → OnOk result (D.pending disk.new ≡ []) }
    ensures stopped { D.tells → IsBlank layout (D.seen disk.old) → D.pending disk.old ≡ []
        → (image : List ℕ) → D.could disk.new (D.clock disk.old) image → IsStopped layout image }
{
    first_bases_are_in_force();
    let tail = begin(disk, layout, block)?;
    fill(disk, layout, tail, base)?;
    open(disk)
}
