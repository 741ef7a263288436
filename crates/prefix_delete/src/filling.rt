//! Fills a block with entries.
ghost use Rattle.std.specs.Prelude.{◌≡◌, ◌+◌, ◌<◌, ◌≤◌, ◌^◌, ◌++◌, length, map, take, get_or, IfOk, OnOk};
ghost use Rattle.hse_fields.specs.BlockText.{prefix_text, prefixes_text};
ghost use Rattle.prefix_delete.specs.Blocks.{block_of, in_block, IsFront};
ghost use Rattle.prefix_delete.specs.declared.entry.Entry.{Entry as an_entry};

use crate::entry::Entry;
use hse_fields::{BlockHeader, PREFIX_KIND, put_pieces, write_header};
use hse_io::NoMemory;
use std::alloc::Global;

/// The block that the first of these entries fill, of at most slot bytes, and how many they are.
pub(crate) fn filled(
    alloc: Global,
    entries: &[Entry],
    slot: u64,
) -> Result<(Vec<u8>, u64), NoMemory>
    requires some { 1 ≤ length entries.now }
    requires large { 2 ^ 16 ≤ slot }
    requires small { slot ≤ 2 ^ 25 }
    ensures { IfOk result (λ made. IsFront entries.now slot made.0.items made.1) }
{
    let mut bytes = Vec::new(alloc);
    bytes.extend_from_slice(&[PREFIX_KIND, 0, 0, 0, 0, 0, 0, 0, 0, 0, 0, 0, 0, 0, 0, 0])?;
    let count = put_entries(&mut bytes, entries, slot)?;
    let head = BlockHeader {
        used: bytes.len() as u32,
        count: count as u32,
        pages: 0,
    };
    write_header(&mut bytes, PREFIX_KIND, head);
    Ok((bytes, count))
}

/// Puts entries behind the bytes as long as they are slot bytes at most, and answers how many.
fn put_entries(bytes: &mut Vec<u8>, entries: &[Entry], slot: u64) -> Result<u64, NoMemory>
    requires within { length bytes.old.items ≤ slot }
    requires small { slot ≤ 2 ^ 25 }
    ensures put { IfOk result (λ count. (count ≤ length entries.now) × (bytes.new.items
        ≡ bytes.old.items ++ prefixes_text (map in_block (take count entries.now)))) }
    ensures fits { OnOk result (length bytes.new.items ≤ slot) }
    ensures full { IfOk result (λ count. (entry : an_entry) → count < length entries.now
        → slot < length bytes.new.items + (9 + length (get_or entries.now count entry).prefix)) }
    ensures near { IfOk result (λ count. count < length entries.now
        → slot < length bytes.new.items + 42) }
    ensures counted { IfOk result (λ count. count ≤ length bytes.new.items) }
{
    let mut count = 0;
    for entry in entries {
        let need = 9 + entry.prefix.bytes().len() as u64;
        if slot < bytes.len() as u64 + need {
            return Ok(count);
        }
        put_entry(bytes, entry)?;
        count += 1;
    }
    Ok(count)
}

/// Puts an entry behind the bytes: its number, and the prefix behind its length.
fn put_entry(bytes: &mut Vec<u8>, entry: &Entry) -> Result<(), NoMemory>
    ensures { OnOk result
        (bytes.new.items ≡ bytes.old.items ++ prefix_text (in_block entry.now)) }
{
    let prefix = entry.prefix.bytes();
    put_pieces(
        bytes,
        &[&entry.number.to_be_bytes(), &[prefix.len() as u8], prefix],
    )
}
