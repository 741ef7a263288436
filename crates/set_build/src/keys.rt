//! Fills blocks with keys, one after another.
ghost use Rattle.std.specs.Prelude.{◌≡◌, ◌≤◌, ◌^◌, ◌++◌, ◌∷◌, [], ℕ, List, length, map, IfOk, OnOk, OnErr, MatchBool, false};
ghost use Rattle.kblock.specs.Building.{Builds};
ghost use Rattle.kblock.specs.Entries.{entry_of};
ghost use Rattle.hse_rows.specs.writes.Lengths.{longest_key};
ghost use Rattle.set_build.specs.Builders.{HoldKeys, OpenBlock, block_bytes, goes_in_last, has_room_for_key, with_key};
ghost use Rattle.set_build.specs.Packs.{bytes_of};

use hse_io::NoMemory;
use kblock::{KeyBlockBuilder, KeyEntry};
use std::alloc::Global;

/// Adds a key to the last block, or to a new one where there is none or it does not fit.
pub(crate) fn push_key(
    blocks: &mut Vec<KeyBlockBuilder>,
    slot: u64,
    entry: &KeyEntry<'_>,
) -> Result<(), NoMemory>
    requires held { (held : List OpenBlock) × HoldKeys slot held blocks.old.items }
    requires large { 2 ^ 16 ≤ slot }
    requires small { slot ≤ 2 ^ 25 }
    requires some { 1 ≤ length entry.now.key.now }
    requires short { length entry.now.key.now ≤ longest_key }
    ensures added { (held : List OpenBlock) → HoldKeys slot held blocks.old.items
        → OnOk result (HoldKeys slot (with_key slot held (entry_of entry.now)) blocks.new.items) }
    ensures unchanged { OnErr result (blocks.new.items ≡ blocks.old.items) }
{
    if push_in_last(blocks, slot, entry) {
        return Ok(());
    }
    let block = block_of(*blocks.allocator(), slot, entry)?;
    blocks.push(block)?;
    Ok(())
}

/// Adds a key to the last block, if there is one in which it fits, and answers whether it did.
fn push_in_last(blocks: &mut Vec<KeyBlockBuilder>, slot: u64, entry: &KeyEntry<'_>) -> bool
    requires held { (held : List OpenBlock) × HoldKeys slot held blocks.old.items }
    requires some { 1 ≤ length entry.now.key.now }
    requires short { length entry.now.key.now ≤ longest_key }
    ensures added { (held : List OpenBlock) → HoldKeys slot held blocks.old.items → MatchBool result
        (HoldKeys slot (with_key slot held (entry_of entry.now)) blocks.new.items)
        (goes_in_last (has_room_for_key slot (entry_of entry.now)) held ≡ false) }
    ensures unchanged { result ≡ false → blocks.new.items ≡ blocks.old.items }
{
    let count = blocks.len();
    if count == 0 {
        return false;
    }
    blocks[count - 1].push(entry).is_ok()
}

/// A block with this key alone.
fn block_of(alloc: Global, slot: u64, entry: &KeyEntry<'_>) -> Result<KeyBlockBuilder, NoMemory>
    requires large { 2 ^ 16 ≤ slot }
    requires small { slot ≤ 2 ^ 25 }
    requires some { 1 ≤ length entry.now.key.now }
    requires short { length entry.now.key.now ≤ longest_key }
    ensures { IfOk result (Builds slot [] (entry_of entry.now ∷ [])) }
{
    let mut block = KeyBlockBuilder::new(alloc, slot)?;
    block.push(entry).unwrap();
    Ok(block)
}

/// The bytes of the blocks.
pub(crate) fn finish_keys(
    alloc: Global,
    blocks: Vec<KeyBlockBuilder>,
) -> Result<Vec<Vec<u8>>, NoMemory>
    requires { (slot : ℕ) × (held : List OpenBlock) × HoldKeys slot held blocks.items }
    ensures { (slot : ℕ) (held : List OpenBlock) → HoldKeys slot held blocks.items
        → IfOk result (λ done. bytes_of done.items ≡ map block_bytes held) }
{
    let mut done = Vec::with_capacity(alloc, blocks.len())?;
    for block in blocks {
        done.push(block.finish())?;
    }
    Ok(done)
}
