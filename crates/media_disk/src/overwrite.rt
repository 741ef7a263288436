//! Bytes in the place of others.
ghost use Rattle.std.specs.Prelude.{◌≡◌, ◌+◌, ◌≤◌, length, replicate};
ghost use Rattle.media_disk.specs.Content.{put_at};

/// Puts bytes in the place of those from an offset on.
pub fn overwrite(bytes: &mut Vec<u8>, at: usize, new: &[u8])
    requires { at + length new.now ≤ length bytes.old.items }
    ensures { bytes.new.items ≡ put_at bytes.old.items at new.now }
{
    bytes[at..at + new.len()].copy_from_slice(new);
}

/// Puts one byte in the place of a number of those from an offset on.
pub fn blank(bytes: &mut Vec<u8>, at: usize, n: usize, byte: u8)
    requires { at + n ≤ length bytes.old.items }
    ensures { bytes.new.items ≡ put_at bytes.old.items at (replicate n byte) }
{
    bytes[at..at + n].fill(byte);
}
