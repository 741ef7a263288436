//! The trait `Disk`, whose contract is the disk model.
ghost use Rattle.std.specs.Prelude.{◌≡◌, ◌⊎◌, ◌+◌, ◌≤◌, [], ◌∷◌, length, replicate, IfOk, OnOk, OnErr};
ghost use Rattle.media_disk.specs.Calls.{Called, OnlyReads};
ghost use Rattle.media_disk.specs.Content.{part, put_at, Torn};
ghost use Rattle.media_disk.specs.Images.{CountsNow, OnlyNow};

use crate::Device;
use thiserror::Error;

/// The device failed.
#[derive(Clone, Copy, Debug, PartialEq, Eq, Error)]
#[error("the device failed")]
pub struct Failed;

/// The calls of a device of bytes. Between two syncs each written range, also that of a failed write, and the range
/// that `set_size` added may hold any bytes after a crash; all other bytes stay. After a sync that succeeds a crash
/// leaves what a read gives; a failed sync leaves all pending ranges pending.
///
/// Each call is `Called`: it counts on the clock, at the clock's last value it fails, a failure raises the count of
/// faults, which stays over a success, and a crash leaves what it might have left before, or what it may leave now.
pub trait Disk: Device {
    /// The device's size in bytes. One that was told, and is not 0, stays.
    fn size(&mut self) -> Result<u64, Failed>
        ensures call { Called Self.Device self.old self.new result }
        ensures size { IfOk result (λ n. n ≡ Self.extent self.new) }
        ensures stays { 1 ≤ Self.extent self.old → Self.extent self.new ≡ Self.extent self.old }
        ensures extent { OnErr result (Self.extent self.new ≡ Self.extent self.old) }
        ensures seen { Self.tells → Self.seen self.new ≡ Self.seen self.old }
        ensures pending { Self.tells → Self.pending self.new ≡ Self.pending self.old };

    /// Gives an empty device a size. The new bytes read as zeros, and are pending.
    fn set_size(&mut self, size: u64) -> Result<(), Failed>
        requires empty { Self.extent self.old ≡ 0 }
        requires some { 1 ≤ size }
        ensures call { Called Self.Device self.old self.new result }
        ensures extent { OnOk result (Self.extent self.new ≡ size) }
        ensures seen { Self.tells → OnOk result (Self.seen self.new ≡ replicate size 0) }
        ensures pending { Self.tells → OnOk result
            (Self.pending self.new ≡ (0, size) ∷ Self.pending self.old) };

    /// Reads the bytes from `at` on. After a failed read the buffer is open.
    fn read(&mut self, at: u64, into: &mut [u8]) -> Result<(), Failed>
        requires { at + length into.old ≤ Self.extent self.old }
        ensures call { Called Self.Device self.old self.new result }
        ensures read { Self.tells → OnOk result
            (into.new ≡ part (Self.seen self.old) at (length into.old)) }
        ensures reads { OnlyReads Self.Device self.old self.new };

    /// Writes the bytes from `at` on. Until a sync the range is pending, also after a failed write, unless the device
    /// tells that a failed write changed nothing.
    fn write(&mut self, at: u64, bytes: &[u8]) -> Result<(), Failed>
        requires { at + length bytes.now ≤ Self.extent self.old }
        ensures call { Called Self.Device self.old self.new result }
        ensures written { Self.tells → OnOk result
            (Self.seen self.new ≡ put_at (Self.seen self.old) at bytes.now) }
        ensures others { Self.tells
            → Torn at (length bytes.now) (Self.seen self.old) (Self.seen self.new) }
        ensures pending { Self.tells → OnOk result
            (Self.pending self.new ≡ (at, length bytes.now) ∷ Self.pending self.old) }
        ensures pending_err { Self.tells → OnErr result
            ((Self.pending self.new ≡ (at, length bytes.now) ∷ Self.pending self.old)
            ⊎ ((Self.pending self.new ≡ Self.pending self.old) × (Self.seen self.new ≡ Self.seen self.old))) }
        ensures extent { Self.extent self.new ≡ Self.extent self.old };

    /// Makes all that was written safe: after it a crash leaves what a read gives. A failed sync leaves all pending.
    fn sync(&mut self) -> Result<(), Failed>
        ensures call { Called Self.Device self.old self.new result }
        ensures durable { Self.tells → OnOk result (Self.pending self.new ≡ []) }
        ensures pending { Self.tells → OnErr result (Self.pending self.new ≡ Self.pending self.old) }
        ensures seen { Self.tells → Self.seen self.new ≡ Self.seen self.old }
        ensures extent { Self.extent self.new ≡ Self.extent self.old };

    /// How many calls of the other five there were; at the last value of a `u64` each further call fails.
    fn clock(&self) -> u64
        ensures { result ≡ Self.clock self.now };

    /// Content that is told is as long as the size.
    ghost as_long: { (disk : Self) → Self.tells → length (Self.seen disk) ≡ Self.extent disk };

    /// What a crash may leave now is among what it might have left since any clock so far.
    ghost counts_now: { CountsNow Self.Device };

    /// Since now there is no other moment.
    ghost only_now: { OnlyNow Self.Device };
}
