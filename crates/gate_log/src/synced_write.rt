//! A write that is made safe at once.
ghost use Rattle.std.specs.Prelude.{◌≡◌, ◌+◌, ◌≤◌, [], length, OnOk};
ghost use Rattle.hse_io.specs.Faults.{HasCause};
ghost use Rattle.media_disk.specs.Calls.{CallsMade};
ghost use Rattle.media_disk.specs.Content.{put_at, Torn};
ghost use Rattle.media_disk.specs.Images.{MayLeave};
ghost use Rattle.media_disk.specs.Leaves.{LeavesOnly};
ghost use Rattle.gate_log.specs.Crashes.{IsTornFrom};

use media_disk::{Disk, Failed};

/// Writes the bytes from `at` on, and syncs. A crash within leaves what it could have left before,
/// but for these bytes, which may be any.
pub(crate) fn write_and_sync<D: Disk>(disk: &mut D, at: u64, bytes: &[u8]) -> Result<(), Failed>
    requires { at + length bytes.now ≤ D.extent disk.old }
    ensures calls { CallsMade D.Device disk.old disk.new }
    ensures cause { HasCause (D.faults disk.old) (D.faults disk.new) result }
    ensures extent { D.extent disk.new ≡ D.extent disk.old }
    ensures written { D.tells
        → OnOk result (D.seen disk.new ≡ put_at (D.seen disk.old) at bytes.now) }
    ensures others { D.tells → Torn at (length bytes.now) (D.seen disk.old) (D.seen disk.new) }
    ensures durable { D.tells → OnOk result (D.pending disk.new ≡ []) }
    ensures crash { D.tells → LeavesOnly D.Device disk.old disk.new
        (IsTornFrom at (length bytes.now) (MayLeave D.Device disk.old)) }
{
    disk.write(at, bytes)?;
    disk.sync()
}
