//! A block of values that was opened.
ghost use Rattle.std.specs.Prelude.{◌≡◌, ◌==◌, if◌then◌else◌, length, None, Some};
ghost use Rattle.hse_fields.specs.LogLimits.{longest_value};
ghost use Rattle.hse_fields.specs.BlockReading.{values_of};
ghost use Rattle.hse_fields.specs.BlockText.{header_size, value_at};
ghost use Rattle.vblock.specs.Opened.{found_in, IsRead};
ghost use Rattle.hse_fields.specs.BlockGiven.{lent};

use crate::reading::read_value;
use hse_fields::{HEADER_SIZE, LONGEST_VALUE, block_body};
use std::marker::Model;

/// A block of values, which stands for its values in order.
#[derive(Drop)]
pub struct ValueBlock {
    pub(crate) bytes: Vec<u8>,
    pub(crate) used: u32,
    pub(crate) count: u32,
}

impl Model for ValueBlock {
    ghost use Rattle.std.specs.Prelude.{List, ℕ};
    ghost use Rattle.vblock.specs.Opened.{values_in, IsOpened};

    ghost Value = { List (List ℕ) };

    ghost view = { λ b. values_in b.used b.count b.bytes.items };

    ghost invariant = { λ b. IsOpened b.used b.count b.bytes.items };
}

impl ValueBlock {
    /// The value of so many bytes whose entry begins at this offset of the block. There is none
    /// exactly where no entry of a value of that length begins there. It takes no memory, and walks
    /// over the entries before the offset.
    pub fn value(&self, offset: u32, len: u32) -> Option<&[u8]>
        ensures { lent result ≡ value_at self.now offset len }
    {
        let entries = block_body(&self.bytes, self.used);
        value_in(entries, self.count, offset as u64, len as u64)
    }
}

/// The value of so many bytes whose entry begins at this offset, among the entries of a block.
fn value_in(entries: &[u8], count: u32, offset: u64, len: u64) -> Option<&[u8]>
    requires { IsRead (values_of longest_value count entries.now) }
    ensures { lent result ≡ found_in header_size offset len (values_of longest_value count entries.now) }
{
    let mut rest = entries;
    let mut at = HEADER_SIZE;
    for _ in 0..count {
        let Ok((value, behind)) = read_value(rest, LONGEST_VALUE) else {
            return None;
        };
        if at == offset {
            return of_length(value, len);
        }
        at += 4 + value.len() as u64;
        rest = behind;
    }
    None
}

/// The value, if it has so many bytes.
pub(crate) fn of_length(value: &[u8], len: u64) -> Option<&[u8]>
    ensures { lent result ≡ (if length value.now == len then Some value.now else None) }
{
    if value.len() as u64 == len {
        return Some(value);
    }
    None
}
