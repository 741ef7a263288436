//! Values by where their entries begin, without a walk.
ghost use Rattle.std.specs.Prelude.{◌≡◌, ◌+◌, ◌-◌, ◌<◌, ◌≤◌, ◌^◌, is_some, length, true, Some, IfOk};
ghost use Rattle.hse_fields.specs.LogLimits.{longest_value};
ghost use Rattle.hse_fields.specs.BlockGiven.{lent};
ghost use Rattle.hse_fields.specs.BlockReading.{values_of};
ghost use Rattle.hse_fields.specs.BlockText.{header_size, value_at};
ghost use Rattle.vblock.specs.Opened.{read_of, IsRead};
ghost use Rattle.vblock.specs.Places.{bytes_at, offsets_from, offsets_of, value_entry, IsEntry};

use crate::ValueBlock;
use crate::reading::read_value;
use crate::value_block::of_length;
use hse_fields::{HEADER_SIZE, LONGEST_VALUE, block_body};
use hse_io::NoMemory;
use std::alloc::Global;

impl ValueBlock {
    /// Where the entries begin, in order. It walks over the block once.
    pub fn offsets(&self, alloc: Global) -> Result<Vec<u32>, NoMemory>
        ensures { IfOk result (λ offsets. offsets.items ≡ offsets_of self.now) }
    {
        offsets_in(alloc, block_body(&self.bytes, self.used), self.count)
    }

    /// The value of so many bytes whose entry begins at this offset, as `value` gives it, by a search
    /// among the block's offsets. It takes no memory.
    pub fn find(&self, offsets: &[u32], offset: u32, len: u32) -> Option<&[u8]>
        requires { offsets.now ≡ offsets_of self.now }
        ensures { lent result ≡ value_at self.now offset len }
    {
        match offsets.binary_search(&offset) {
            Ok(_) => of_length(
                entry_in(block_body(&self.bytes, self.used), offset),
                len as u64,
            ),
            Err(_) => None,
        }
    }

    /// The value of so many bytes whose entry begins at this offset, where there is one. It is read in
    /// place: it takes no memory, and walks over nothing.
    pub fn lent(&self, offset: u32, len: u32) -> &[u8]
        requires { is_some (value_at self.now offset len) ≡ true }
        ensures { value_at self.now offset len ≡ Some result.now }
    {
        bytes_in(block_body(&self.bytes, self.used), offset, len)
    }
}

/// The value at an offset of a block whose entries are these.
fn entry_in(entries: &[u8], offset: u32) -> &[u8]
    requires { IsEntry offset entries.now }
    ensures { value_entry offset entries.now ≡ Some result.now }
{
    let (_, entry) = entries.split_at((offset as u64 - HEADER_SIZE) as usize);
    match read_value(entry, LONGEST_VALUE) {
        Ok((value, _)) => value,
        Err(_) => unreachable!(),
    }
}

/// So many bytes behind the length at an offset of a block whose entries are these.
fn bytes_in(entries: &[u8], offset: u32, len: u32) -> &[u8]
    requires low { header_size ≤ offset }
    requires room { offset - header_size + (4 + len) ≤ length entries.now }
    ensures { result.now ≡ bytes_at offset len entries.now }
{
    let (_, entry) = entries.split_at((offset as u64 - HEADER_SIZE) as usize);
    let (_, behind) = entry.split_at(4);
    let (value, _) = behind.split_at(len as usize);
    value
}

/// Where so many entries begin.
fn offsets_in(alloc: Global, entries: &[u8], count: u32) -> Result<Vec<u32>, NoMemory>
    requires read { IsRead (values_of longest_value count entries.now) }
    requires small { length entries.now < 4294967280 }
    ensures { IfOk result (λ offsets.
        offsets.items ≡ offsets_of (read_of (values_of longest_value count entries.now))) }
{
    let mut offsets = Vec::new(alloc);
    let mut at = HEADER_SIZE as u32;
    let mut rest = entries;
    for _ in 0..count {
        offsets.push(at)?;
        let Ok((value, behind)) = read_value(rest, LONGEST_VALUE) else {
            unreachable!();
        };
        at += 4 + value.len() as u32;
        rest = behind;
    }
    Ok(offsets)
}
