//! The calls of a device in memory.
ghost use Rattle.std.specs.Prelude.{◌≡◌, ◌⊎◌, ◌+◌, ◌≤◌, true, false, [], ◌∷◌, length, replicate, IfOk, OnOk, OnErr, refl};
ghost use Rattle.media_disk.specs.Calls.{Called, OnlyReads};
ghost use Rattle.media_disk.specs.Content.{part, put_at, Torn};
ghost use Rattle.media_disk.specs.Entered.{Entered, WriteEntered};
ghost use Rattle.media_disk.specs.Lists.{fails, fails_write, after_write};
ghost use Rattle.media_disk.specs.MemDisk.{mem_bytes, mem_pending, mem_calls, mem_clock, mem_lists, mem_history};
ghost use Rattle.media_disk.specs.laws.Moments.{could_now, could_only_now};

use crate::overwrite::overwrite;
use crate::{Device, Disk, Failed, MemDisk, Work};

impl Disk for MemDisk {
    ghost as_long = { λ disk tells. refl };

    ghost counts_now = { λ disk clock image tells le now.
        could_now (mem_calls disk) (mem_bytes disk) clock image now };

    ghost only_now = { λ disk image tells left.
        could_only_now (mem_calls disk) (mem_bytes disk) (mem_clock disk) image disk.history.later left };

    fn size(&mut self) -> Result<u64, Failed>
        ensures call { Called ⟦<MemDisk as Device>⟧ self.old self.new result }
        ensures size { IfOk result (λ n. n ≡ length (mem_bytes self.new)) }
        ensures seen { mem_bytes self.new ≡ mem_bytes self.old }
        ensures pending { mem_pending self.new ≡ mem_pending self.old }
        ensures entered { Entered (mem_history self.old) (mem_history self.new) Work.Size
            (fails (mem_lists self.old) (mem_clock self.old)) result }
        ensures lists { mem_lists self.new ≡ mem_lists self.old }
    {
        let listed = self.history.is_listed();
        self.history.enter(Work::Size, listed)?;
        Ok(self.bytes.len() as u64)
    }

    fn set_size(&mut self, size: u64) -> Result<(), Failed>
        requires empty { length (mem_bytes self.old) ≡ 0 }
        requires some { 1 ≤ size }
        ensures call { Called ⟦<MemDisk as Device>⟧ self.old self.new result }
        ensures extent { OnOk result (length (mem_bytes self.new) ≡ size) }
        ensures seen { OnOk result (mem_bytes self.new ≡ replicate size 0) }
        ensures pending { OnOk result
            (mem_pending self.new ≡ (0, size) ∷ mem_pending self.old) }
        ensures entered { Entered (mem_history self.old) (mem_history self.new) (Work.SetSize size)
            (fails (mem_lists self.old) (mem_clock self.old)) result }
        ensures lists { mem_lists self.new ≡ mem_lists self.old }
    {
        let listed = self.history.is_listed();
        let mut grown = Vec::new(*self.bytes.allocator());
        if !listed {
            if let Err(_) = grown.resize(size as usize, 0) {
                return self.history.refuse(listed);
            }
        }
        self.history.enter(Work::SetSize(size), listed)?;
        self.bytes = grown;
        Ok(())
    }

    fn read(&mut self, at: u64, into: &mut [u8]) -> Result<(), Failed>
        requires { at + length into.old ≤ length (mem_bytes self.old) }
        ensures call { Called ⟦<MemDisk as Device>⟧ self.old self.new result }
        ensures read { OnOk result (into.new ≡ part (mem_bytes self.old) at (length into.old)) }
        ensures reads { OnlyReads ⟦<MemDisk as Device>⟧ self.old self.new }
        ensures entered { Entered (mem_history self.old) (mem_history self.new) Work.Read
            (fails (mem_lists self.old) (mem_clock self.old)) result }
        ensures lists { mem_lists self.new ≡ mem_lists self.old }
    {
        let listed = self.history.is_listed();
        self.history.enter(Work::Read, listed)?;
        let from = at as usize;
        into.copy_from_slice(&self.bytes[from..from + into.len()]);
        Ok(())
    }

    /// A listed write fails and changes nothing that a read gives, and its range is pending.
    fn write(&mut self, at: u64, bytes: &[u8]) -> Result<(), Failed>
        requires { at + length bytes.now ≤ length (mem_bytes self.old) }
        ensures call { Called ⟦<MemDisk as Device>⟧ self.old self.new result }
        ensures written { OnOk result (mem_bytes self.new ≡ put_at (mem_bytes self.old) at bytes.now) }
        ensures seen_err { OnErr result (mem_bytes self.new ≡ mem_bytes self.old) }
        ensures others { Torn at (length bytes.now) (mem_bytes self.old) (mem_bytes self.new) }
        ensures pending { OnOk result
            (mem_pending self.new ≡ (at, length bytes.now) ∷ mem_pending self.old) }
        ensures pending_err { OnErr result (
            (mem_pending self.new ≡ (at, length bytes.now) ∷ mem_pending self.old)
            ⊎ (mem_pending self.new ≡ mem_pending self.old)) }
        ensures entered { fails_write (mem_lists self.old) (mem_clock self.old) ≡ false
            → WriteEntered (mem_history self.old) (mem_history self.new) at
            (part (mem_bytes self.old) at (length bytes.now)) result }
        ensures listed { fails_write (mem_lists self.old) (mem_clock self.old) ≡ true
            → Entered (mem_history self.old) (mem_history self.new)
            (Work.FailedWrite at (length bytes.now)) true result }
        ensures lists { mem_lists self.new ≡ after_write (mem_lists self.old) }
    {
        let from = at as usize;
        let to = from + bytes.len();
        if self.history.is_listed_write() {
            return self
                .history
                .enter(Work::FailedWrite(at, bytes.len() as u64), true);
        }
        let Ok(kept) = self.bytes[from..to].to_vec(*self.bytes.allocator()) else {
            return self.history.refuse(false);
        };
        self.history.enter(Work::Write(at, kept), false)?;
        overwrite(&mut self.bytes, from, bytes);
        Ok(())
    }

    fn sync(&mut self) -> Result<(), Failed>
        ensures call { Called ⟦<MemDisk as Device>⟧ self.old self.new result }
        ensures durable { OnOk result (mem_pending self.new ≡ []) }
        ensures pending { OnErr result (mem_pending self.new ≡ mem_pending self.old) }
        ensures seen { mem_bytes self.new ≡ mem_bytes self.old }
        ensures entered { Entered (mem_history self.old) (mem_history self.new) Work.Sync
            (fails (mem_lists self.old) (mem_clock self.old)) result }
        ensures lists { mem_lists self.new ≡ mem_lists self.old }
    {
        let listed = self.history.is_listed();
        self.history.enter(Work::Sync, listed)
    }

    fn clock(&self) -> u64 {
        self.history.clock
    }
}
