//! Opens a device: formats an empty one, and reads the log of another.
ghost use Rattle.std.specs.Prelude.{◌≡◌, ◌≢◌, ℕ, ◌+◌, ◌<◌, ◌≤◌, List, [], Some, IfOk, OnOk, OnErr, IsErrOf, vec_len, vec_capacity};
ghost use Rattle.hse_io.specs.Faults.{Rose, HasCause};
ghost use Rattle.media_disk.specs.Calls.{CallsMade, OnlyReads};
ghost use Rattle.gate_log.specs.Gates.{IsClosed};
ghost use Rattle.gate_log.specs.Places.{region_of};
ghost use Rattle.gate_log.specs.Reading.{IsFront, LiesInside, payloads_of};
ghost use Rattle.hse_shell.specs.Machine.{opening};
ghost use Rattle.hse_shell.specs.Stands.{IsIdle, base_in};
ghost use Rattle.hse_shell.specs.Stored.{device_size, log_region, base_of, Stores, Begins, IsRefusedAt};
ghost use Rattle.hse_shell.specs.Logged.{Serves, Stays, WasEmptyOrStays};

use crate::engine::Engine;
use crate::log::{DEVICE_SIZE, LOG};
use crate::replay::{Replayed, replay};
use gate_log::{Front, FrontFault, read_front, start};
use hse_io::NoMemory;
use media_disk::{Disk, Failed};
use std::alloc::Global;

/// Why a device was not opened.
#[derive(Clone, Copy, Debug, PartialEq, Eq)]
pub(crate) enum OpenFault {
    /// At this place of the log, in bytes, stands the first field that is refused.
    NotFormed(u64),
    Device,
    NoMemory,
}

impl From<Failed> for OpenFault {
    ghost use Rattle.std.specs.Prelude.{◌≡◌};
    ghost use Rattle.hse_shell.specs.declared.open.OpenFault.TheVariants.{Device};

    ghost from_gives = { λ _ fault. fault ≡ Device };

    fn from(_: Failed) -> Self {
        OpenFault::Device
    }
}

// Gives an empty device its size, and makes that safe.
fn give_size<D: Disk>(disk: &mut D, size: u64) -> Result<(), Failed>
    requires empty { D.extent disk.old ≡ 0 }
    requires some { 1 ≤ size }
    ensures sized { OnOk result (D.extent disk.new ≡ size) }
    ensures durable { D.tells → OnOk result (D.pending disk.new ≡ []) }
    ensures cause { HasCause (D.faults disk.old) (D.faults disk.new) result }
{
    disk.set_size(size)?;
    disk.sync()?;
    Ok(())
}

// Makes the empty device one started region, and notes that the base is safe.
fn format<D: Disk>(disk: &mut D, engine: &mut Engine) -> Result<(), Failed>
    requires empty { D.extent disk.old ≡ 0 }
    requires base { base_in engine.old ≡ base_of [] }
    requires idle { IsIdle engine.old }
    requires unmarked { engine.old.marks.items ≡ [] }
    requires room { vec_len engine.old.marks + 1 < vec_capacity engine.old.marks }
    ensures serves { OnOk result (Serves D.Device disk.new engine.new (opening (base_in engine.new))) }
    ensures base { base_in engine.new ≡ base_in engine.old }
    ensures cause { HasCause (D.faults disk.old) (D.faults disk.new) result }
{
    give_size(disk, DEVICE_SIZE)?;
    let tail = start(disk, &LOG, 1)?;
    engine.tail = tail;
    engine.note(disk.clock());
    Ok(())
}

// The front of the log. A closed head is refused.
fn read_log<D: Disk>(alloc: Global, disk: &mut D) -> Result<Front, OpenFault>
    requires { D.extent disk.old ≡ device_size }
    ensures found { D.tells
        → IfOk result (λ front. IsFront (region_of log_region (D.seen disk.old)) (Some front)) }
    ensures inside { IfOk result (λ front. LiesInside device_size (payloads_of front.batches.items) front.end) }
    ensures refused { (place : ℕ) → IsErrOf result (OpenFault.NotFormed place)
        → (place ≡ 0) × (D.tells → IsClosed (region_of log_region (D.seen disk.old))) }
    ensures device { IsErrOf result OpenFault.Device → Rose (D.faults disk.old) (D.faults disk.new) }
    ensures calls { CallsMade D.Device disk.old disk.new }
    ensures reads { OnlyReads D.Device disk.old disk.new }
{
    match read_front(alloc, disk, &LOG) {
        Ok(Some(front)) => Ok(front),
        Ok(None) => Err(OpenFault::NotFormed(0)),
        Err(FrontFault::Device) => Err(OpenFault::Device),
        Err(FrontFault::NoMemory) => Err(OpenFault::NoMemory),
    }
}

// Reads the log of a device that has the size of one, and notes that what it stores is safe.
fn recover<D: Disk>(alloc: Global, disk: &mut D, engine: &mut Engine) -> Result<(), OpenFault>
    requires sized { D.extent disk.old ≡ device_size }
    requires idle { IsIdle engine.old }
    requires unmarked { engine.old.marks.items ≡ [] }
    requires room { vec_len engine.old.marks + 1 < vec_capacity engine.old.marks }
    ensures serves { OnOk result (Serves D.Device disk.new engine.new (opening (base_in engine.new))) }
    ensures stores { D.tells → OnOk result (Stores (D.seen disk.old) (base_in engine.new)) }
    ensures refused { (place : ℕ) → IsErrOf result (OpenFault.NotFormed place)
        → D.tells → IsRefusedAt (D.seen disk.old) place }
    ensures stays { D.tells → Stays D.Device disk.old disk.new }
    ensures device { IsErrOf result OpenFault.Device → Rose (D.faults disk.old) (D.faults disk.new) }
    ensures later { D.faults disk.old ≤ D.faults disk.new }
{
    disk.sync()?;
    let moment = disk.clock();
    let front = read_log(alloc, disk)?;
    let Replayed {
        rows,
        number,
        charges,
        tail,
    } = replay(alloc, front)?;
    engine.rows = rows;
    engine.number = number;
    engine.charges = charges;
    engine.tail = tail;
    engine.note(moment);
    Ok(())
}

/// Opens a device: formats an empty one, reads the log of another, and notes that what it stores is safe. Before the
/// log is read a sync leaves nothing pending.
pub(crate) fn open<D: Disk>(alloc: Global, disk: &mut D) -> Result<Engine, OpenFault>
    ensures serves { IfOk result (λ engine. Serves D.Device disk.new engine (opening (base_in engine))) }
    ensures begins { IfOk result (λ engine. D.tells → Begins (D.seen disk.old) (base_in engine)) }
    ensures refused { (place : ℕ) → IsErrOf result (OpenFault.NotFormed place)
        → D.tells → IsRefusedAt (D.seen disk.old) place × Stays D.Device disk.old disk.new }
    ensures stays { OnErr result (WasEmptyOrStays D.Device disk.old disk.new) }
    ensures device { IsErrOf result OpenFault.Device → Rose (D.faults disk.old) (D.faults disk.new) }
    ensures later { D.faults disk.old ≤ D.faults disk.new }
{
    let Ok(mut engine) = Engine::new(alloc) else {
        return Err(OpenFault::NoMemory);
    };
    match disk.size()? {
        0 => format(disk, &mut engine)?,
        DEVICE_SIZE => recover(alloc, disk, &mut engine)?,
        _ => return Err(OpenFault::NotFormed(0)),
    }
    Ok(engine)
}
