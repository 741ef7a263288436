//! The device calls of a turn.
ghost use Rattle.std.specs.Prelude.{◌≡◌, ◌≢◌, ◌≤◌, ℕ, true, None, OnOk, OnErr};
ghost use Rattle.hse_io.specs.Faults.{HasCause};
ghost use Rattle.media_disk.specs.Calls.{CallsMade};
ghost use Rattle.media_disk.specs.Leaves.{LeavesOnly};
ghost use Rattle.hse_rows.specs.machine.Core.{Core};
ghost use Rattle.recovery.specs.Image.{Loaded};
ghost use Rattle.recovery.specs.Machine.{stored_of};
ghost use Rattle.back.specs.Home.{AtRest};
ghost use Rattle.kvdb.specs.Ending.{written_to, RoseWhere};
ghost use Rattle.kvdb.specs.Found.{StoresFrom, stored_at};
ghost use Rattle.kvdb.specs.Serves.{RestsAt};
ghost use Rattle.wal.specs.Writing.{room_in};
ghost use Rattle.kvdb.specs.Room.{bytes_of, count_of, need_of, HasRoomForAny};
ghost use Rattle.kvdb.specs.Turns.{Carries, IsIdle, IsPutAt, LeadsTo, TurnOf, RanOf};
ghost use Rattle.hse_rows.specs.machine.Turn.{Calls};

use crate::side::TurnKind;
use crate::turn::{Ran, Turn};
use back::{Back, EntryPlan};
use gate_log::Batch;
use media_disk::{Disk, Failed};

/// Writes a batch of commits, if there is one.
fn write<D: Disk>(back: &mut Back<D>, batch: &Option<Batch>) -> Result<(), Failed>
    requires long { 4 ≤ bytes_of batch.now }
    requires counted { 1 ≤ count_of batch.now }
    requires fits { need_of batch.now ≤ room_in back.old.log }
    ensures calls { CallsMade D.Device back.old.disk back.new.disk }
    ensures cause { HasCause (D.faults back.old.disk) (D.faults back.new.disk) result }
    ensures parts { back.new.manifest ≡ back.old.manifest }
    ensures works { OnErr result (batch.now ≢ None) }
    ensures written { D.tells → (m : Core) (number : ℕ) (loaded : Loaded)
        → AtRest D.Device back.old.disk back.old.layout back.old.log back.old.manifest loaded
        → LeadsTo m number batch.now loaded
        → OnOk result (RestsAt D.Device back.new (stored_at m number)) }
    ensures crash { D.tells → (m : Core) (number : ℕ) (loaded : Loaded)
        → AtRest D.Device back.old.disk back.old.layout back.old.log back.old.manifest loaded
        → stored_of loaded ≡ stored_at m m.safe → m.safe ≤ number → LeadsTo m number batch.now loaded
        → LeavesOnly D.Device back.old.disk back.new.disk (StoresFrom m number) }
{
    match batch {
        None => Ok(()),
        Some(batch) => back.sync(batch),
    }
}

/// Writes what a turn of this kind carries: the commits, where there are any, and behind them the entry of a
/// creation or a drop.
fn write_all<D: Disk>(
    back: &mut Back<D>,
    kind: TurnKind,
    batch: &Option<Batch>,
    plan: &Option<EntryPlan>,
) -> Result<(), Failed>
    requires long { 4 ≤ bytes_of batch.now }
    requires counted { 1 ≤ count_of batch.now }
    requires fits { need_of batch.now ≤ room_in back.old.log }
    requires planned { HasRoomForAny back.old.manifest plan.now }
    ensures calls { CallsMade D.Device back.old.disk back.new.disk }
    ensures cause { HasCause (D.faults back.old.disk) (D.faults back.new.disk) result }
    ensures works { OnErr result (IsIdle batch.now plan.now → ⊥) }
    ensures put { OnOk result (IsPutAt back.old.manifest plan.now back.new.manifest) }
    ensures written { D.tells → (m : Core) (number : ℕ) (loaded : Loaded)
        → AtRest D.Device back.old.disk back.old.layout back.old.log back.old.manifest loaded
        → Carries m kind number back.old.manifest batch.now plan.now loaded
        → OnOk result (RestsAt D.Device back.new (stored_at m number)) }
    ensures crash { D.tells → (m : Core) (number : ℕ) (loaded : Loaded)
        → AtRest D.Device back.old.disk back.old.layout back.old.log back.old.manifest loaded
        → stored_of loaded ≡ stored_at m m.safe → m.safe ≤ number
        → Carries m kind number back.old.manifest batch.now plan.now loaded
        → LeavesOnly D.Device back.old.disk back.new.disk (StoresFrom m number) }
{
    match plan {
        None => write(back, batch),
        Some(plan) if kind == TurnKind::Create => back.create_store(batch.as_ref(), plan),
        Some(plan) => back.drop_store(batch.as_ref(), plan),
    }
}

impl<D: Disk> Turn<D> {
    /// Makes the turn's device calls: the commits that wait, and behind them the entry of a creation or a
    /// drop. It takes no memory. Whenever the device stops within, it stores the life at a number from
    /// what is safe up to the turn's; where no call failed nothing is pending, and it stores the life at
    /// the turn's number. A call fails only in a turn that has something to write.
    pub fn run(self) -> Ran<D>
        ensures ran { (m : Core) → TurnOf D.Device self m
            → RanOf D.Device result (written_to m result.has_failed) }
        ensures crash { (m : Core) → TurnOf D.Device self m → D.tells
            → LeavesOnly D.Device self.back.disk result.back.disk (StoresFrom m self.number) }
        ensures calls { CallsMade D.Device self.back.disk result.back.disk }
        ensures failed { RoseWhere (D.faults self.back.disk) (D.faults result.back.disk) result.has_failed }
        ensures works { (m : Core) → TurnOf D.Device self m → result.has_failed ≡ true → Calls m.turn }
        ensures kind { result.kind ≡ self.kind }
        ensures number { result.number ≡ self.number }
    {
        let Turn {
            mut back,
            kind,
            number,
            batch,
            plan,
        } = self;
        match write_all(&mut back, kind, &batch, &plan) {
            Ok(()) => Ran {
                back,
                kind,
                number,
                has_failed: false,
            },
            Err(Failed) => Ran {
                back,
                kind,
                number,
                has_failed: true,
            },
        }
    }

    /// Ends the run with the turn out: the disk as it is, with no device call.
    pub fn stop(self) -> D
        ensures { result ≡ self.back.disk }
    {
        let Turn {
            back,
            kind: _,
            number: _,
            batch: _,
            plan: _,
        } = self;
        disk_of(back)
    }
}

/// The disk of a device side.
pub(crate) fn disk_of<D: Disk>(back: Back<D>) -> D
    ensures { result ≡ back.disk }
{
    let Back {
        disk,
        layout: _,
        log: _,
        manifest: _,
    } = back;
    disk
}

impl<D: Disk> Ran<D> {
    /// Whether a device call failed. It takes no memory.
    pub fn failed(&self) -> bool
        ensures { result ≡ self.now.has_failed }
    {
        self.has_failed
    }

    /// Ends the run with the turn out: the disk as it is, with no device call.
    pub fn stop(self) -> D
        ensures { result ≡ self.back.disk }
    {
        let Ran {
            back,
            kind: _,
            number: _,
            has_failed: _,
        } = self;
        disk_of(back)
    }
}
