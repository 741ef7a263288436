//! Collects prefix deletes, and fills their blocks.
ghost use Rattle.std.specs.Prelude.{◌≡◌, ◌+◌, ◌-◌, ◌≤◌, ◌^◌, length, map, IfOk, OnErr, OnOk};
ghost use Rattle.hse_fields.specs.BlockText.{header_size};
ghost use Rattle.hse_rows.specs.rows.Packing.{filled};
ghost use Rattle.hse_rows.specs.writes.Lengths.{IsPrefixLength};
ghost use Rattle.prefix_delete.specs.Blocks.{block_of};
ghost use Rattle.prefix_delete.specs.Prefixes.{entry_of, with_entry};
ghost use Rattle.set_build.specs.Packs.{bytes_of, entry_size};

use hse_io::NoMemory;
use hse_rows::{LONGEST_PREFIX, Prefix};
use prefix_delete::PrefixList;
use std::alloc::Global;

/// Adds a prefix delete.
pub(crate) fn push_prefix(
    alloc: Global,
    list: &mut PrefixList,
    prefix: &[u8],
    number: u64,
) -> Result<(), NoMemory>
    requires { IsPrefixLength (length prefix.now) }
    ensures added { OnOk result (list.new ≡ with_entry list.old (entry_of prefix.now number)) }
    ensures unchanged { OnErr result (list.new ≡ list.old) }
{
    match Prefix::new(alloc, prefix, LONGEST_PREFIX as u8) {
        Ok(prefix) => list.add(prefix, number),
        Err(_) => Err(NoMemory),
    }
}

/// The blocks of the prefix deletes.
pub(crate) fn finish_prefixes(
    alloc: Global,
    list: &PrefixList,
    slot: u64,
) -> Result<Vec<Vec<u8>>, NoMemory>
    requires large { 2 ^ 16 ≤ slot }
    requires small { slot ≤ 2 ^ 25 }
    ensures { IfOk result (λ done. bytes_of done.items
        ≡ map block_of (filled entry_size (slot - header_size) list.now)) }
{
    let mut done = Vec::new(alloc);
    let mut from = 0;
    while from < list.len() {
        let (block, next) = list.to_block(alloc, from, slot)?;
        done.push(block)?;
        from = next;
    }
    Ok(done)
}
