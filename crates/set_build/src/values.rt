//! Fills blocks with values, one after another.
ghost use Rattle.std.specs.Prelude.{◌≡◌, ◌+◌, ◌<◌, ◌≤◌, ◌^◌, ◌++◌, ◌∷◌, [], false, true, ℕ, List, length, map, MatchOption, Some, IfOk, OnErr, OnOk, vec_len, vec_capacity};
ghost use Rattle.hse_fields.specs.BlockReading.{key_entry};
ghost use Rattle.hse_fields.specs.BlockText.{value_block_text};
ghost use Rattle.kblock.specs.Entries.{entry_of};
ghost use Rattle.vblock.specs.Building.{Builds};
ghost use Rattle.hse_rows.specs.writes.Lengths.{longest_key};
ghost use Rattle.set_build.specs.Builders.{HoldKeys, HoldValues, OpenBlock, entry_behind, goes_in_last, has_room, place_behind, with_key, with_value};
ghost use Rattle.set_build.specs.Packs.{bytes_of};

use crate::keys::push_key;
use hse_fields::{HEADER_SIZE, ValuePlace};
use hse_io::NoMemory;
use kblock::{KeyBlockBuilder, KeyEntry};
use std::alloc::Global;
use vblock::ValueBlockBuilder;

/// Adds a value to the last block, or to a new one where there is none or it does not fit, and its
/// key, of which the entry tells the rest.
pub(crate) fn push_put(
    blocks: &mut Vec<ValueBlockBuilder>,
    keys: &mut Vec<KeyBlockBuilder>,
    slot: u64,
    entry: KeyEntry<'_>,
    value: &[u8],
) -> Result<(), NoMemory>
    requires held { (held : List (List (List ℕ))) × HoldValues slot held blocks.old.items }
    requires keys_held { (held : List OpenBlock) × HoldKeys slot held keys.old.items }
    requires large { 2 ^ 16 ≤ slot }
    requires small { slot ≤ 2 ^ 25 }
    requires fits { 20 + length value.now ≤ slot }
    requires some { 1 ≤ length entry.key.now }
    requires short { length entry.key.now ≤ longest_key }
    requires few { length blocks.old.items ≤ 2 ^ 32 }
    ensures added { (held : List (List (List ℕ))) → HoldValues slot held blocks.old.items
        → OnOk result (HoldValues slot (with_value slot held value.now) blocks.new.items) }
    ensures key { (held : List (List (List ℕ))) (keys_held : List OpenBlock)
        → HoldValues slot held blocks.old.items → HoldKeys slot keys_held keys.old.items
        → OnOk result (HoldKeys slot (with_key slot keys_held
        (entry_behind slot held entry.entry.number entry.entry.key.now (length value.now))) keys.new.items) }
    ensures few { OnOk result (length blocks.new.items ≤ 2 ^ 32) }
    ensures unchanged { OnErr result (blocks.new.items ≡ blocks.old.items) }
    ensures keys_unchanged { OnErr result (keys.new.items ≡ keys.old.items) }
{
    match place_in_last(blocks, slot, value.len() as u64) {
        None => push_with_block(blocks, keys, slot, entry, value),
        Some(place) => {
            push_key(keys, slot, &at(entry, place))?;
            put_in_last(blocks, value);
            Ok(())
        }
    }
}

/// The entry with its value at a place.
fn at(entry: KeyEntry<'_>, place: ValuePlace) -> KeyEntry<'_>
    ensures { entry_of result ≡ key_entry entry.entry.number entry.entry.key.now (Some place) }
{
    KeyEntry {
        value: Some(place),
        ..entry
    }
}

/// Adds a value to a new block, and its key.
fn push_with_block(
    blocks: &mut Vec<ValueBlockBuilder>,
    keys: &mut Vec<KeyBlockBuilder>,
    slot: u64,
    entry: KeyEntry<'_>,
    value: &[u8],
) -> Result<(), NoMemory>
    requires held { (held : List (List (List ℕ))) × HoldValues slot held blocks.old.items
        × (goes_in_last (has_room slot (length value.now)) held ≡ false) }
    requires keys_held { (held : List OpenBlock) × HoldKeys slot held keys.old.items }
    requires large { 2 ^ 16 ≤ slot }
    requires small { slot ≤ 2 ^ 25 }
    requires fits { 20 + length value.now ≤ slot }
    requires some { 1 ≤ length entry.key.now }
    requires short { length entry.key.now ≤ longest_key }
    ensures added { (held : List (List (List ℕ))) → HoldValues slot held blocks.old.items
        → goes_in_last (has_room slot (length value.now)) held ≡ false
        → OnOk result (HoldValues slot (with_value slot held value.now) blocks.new.items) }
    ensures key { (held : List (List (List ℕ))) (keys_held : List OpenBlock)
        → HoldValues slot held blocks.old.items
        → goes_in_last (has_room slot (length value.now)) held ≡ false
        → HoldKeys slot keys_held keys.old.items
        → OnOk result (HoldKeys slot (with_key slot keys_held
        (entry_behind slot held entry.entry.number entry.entry.key.now (length value.now))) keys.new.items) }
    ensures few { OnOk result (length blocks.new.items ≤ 2 ^ 32) }
    ensures unchanged { OnErr result (blocks.new.items ≡ blocks.old.items) }
    ensures keys_unchanged { OnErr result (keys.new.items ≡ keys.old.items) }
{
    let Ok(block) = u32::try_from(blocks.len()) else {
        // Memory does not hold so many blocks.
        return Err(NoMemory);
    };
    let next = block_of(*blocks.allocator(), slot, value)?;
    blocks.reserve(1)?;
    let place = ValuePlace {
        block,
        offset: HEADER_SIZE as u32,
        len: value.len() as u32,
    };
    push_key(keys, slot, &at(entry, place))?;
    push_reserved(blocks, next);
    Ok(())
}

/// Adds a block in room that was made before.
fn push_reserved(blocks: &mut Vec<ValueBlockBuilder>, block: ValueBlockBuilder)
    requires { vec_len blocks.old < vec_capacity blocks.old }
    ensures { blocks.new.items ≡ blocks.old.items ++ block ∷ [] }
{
    blocks.push(block).unwrap();
}

/// Where a value of so many bytes goes in the last block, if there is one in which it fits.
fn place_in_last(blocks: &[ValueBlockBuilder], slot: u64, len: u64) -> Option<ValuePlace>
    requires held { (held : List (List (List ℕ))) × HoldValues slot held blocks.now }
    requires small { slot ≤ 2 ^ 25 }
    requires fits { 20 + len ≤ slot }
    requires few { length blocks.now ≤ 2 ^ 32 }
    ensures { (held : List (List (List ℕ))) → HoldValues slot held blocks.now
        → MatchOption result (goes_in_last (has_room slot len) held ≡ false)
        (λ place. (goes_in_last (has_room slot len) held ≡ true) × (place ≡ place_behind slot 0 held len)) }
{
    let count = blocks.len();
    if count == 0 {
        return None;
    }
    let last = count - 1;
    let room = blocks[last].room();
    if room < 4 + len {
        return None;
    }
    Some(ValuePlace {
        block: last as u32,
        offset: (slot - room) as u32,
        len: len as u32,
    })
}

/// Adds a value to the last block, in which it fits.
fn put_in_last(blocks: &mut Vec<ValueBlockBuilder>, value: &[u8])
    requires { (slot : ℕ) × (held : List (List (List ℕ)))
        × HoldValues slot held blocks.old.items
        × (goes_in_last (has_room slot (length value.now)) held ≡ true) }
    ensures held { (slot : ℕ) (held : List (List (List ℕ)))
        → HoldValues slot held blocks.old.items
        → goes_in_last (has_room slot (length value.now)) held ≡ true
        → HoldValues slot (with_value slot held value.now) blocks.new.items }
    ensures count { length blocks.new.items ≡ length blocks.old.items }
{
    let last = blocks.len() - 1;
    blocks[last].push(value).unwrap();
}

/// A block with this value alone.
fn block_of(alloc: Global, slot: u64, value: &[u8]) -> Result<ValueBlockBuilder, NoMemory>
    requires large { 2 ^ 16 ≤ slot }
    requires small { slot ≤ 2 ^ 25 }
    requires fits { 20 + length value.now ≤ slot }
    ensures { IfOk result (Builds slot (value.now ∷ [])) }
{
    let mut block = ValueBlockBuilder::new(alloc, slot)?;
    block.push(value).unwrap();
    Ok(block)
}

/// The bytes of the blocks.
pub(crate) fn finish_values(
    alloc: Global,
    blocks: Vec<ValueBlockBuilder>,
) -> Result<Vec<Vec<u8>>, NoMemory>
    requires { (slot : ℕ) × (held : List (List (List ℕ))) × HoldValues slot held blocks.items }
    ensures { (slot : ℕ) (held : List (List (List ℕ))) → HoldValues slot held blocks.items
        → IfOk result (λ done. bytes_of done.items ≡ map value_block_text held) }
{
    let mut done = Vec::with_capacity(alloc, blocks.len())?;
    for block in blocks {
        done.push(block.finish())?;
    }
    Ok(done)
}
