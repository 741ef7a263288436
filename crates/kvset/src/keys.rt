//! The keys of a set, block by block.
ghost use Rattle.std.specs.Prelude.{◌≡◌, ◌<◌, ◌≤◌, length, slice_get, true, Some};
ghost use Rattle.std.specs.List.{find};
ghost use Rattle.kblock.specs.Entries.{entry_of, found_of};
ghost use Rattle.kblock.specs.Opened.{has_key};
ghost use Rattle.kblock.specs.Placing.{count_below};
ghost use Rattle.kvset.specs.Keys.{all_keys, behind_at, is_behind, keys_in, AreParts, IsUpTo};

use kblock::{KeyBlock, KeyEntry};
use std::cmp::Ordering;

/// A block of keys, and how many keys stand in the blocks before it.
#[derive(Drop)]
pub(crate) struct KeyPart {
    pub(crate) slot: u32,
    pub(crate) block: KeyBlock,
    pub(crate) before: u64,
}

/// What is looked for among the blocks.
#[derive(Clone, Copy)]
enum Aim<'k> {
    Key(&'k [u8]),
    At(u64),
}

/// Whether a block begins behind what is looked for.
fn is_behind(aim: Aim<'_>, part: &KeyPart) -> bool
    requires { 1 ≤ length (keys_in part.now) }
    ensures { result ≡ is_behind aim.entry part.now }
{
    match aim {
        Aim::At(at) => at < part.before,
        Aim::Key(key) => match part.block.entry(0).key.cmp(key) {
            Ordering::Greater => true,
            Ordering::Equal => false,
            Ordering::Less => false,
        },
    }
}

/// How many blocks do not begin behind what is looked for, by a binary search.
fn parts_to(parts: &[KeyPart], aim: Aim<'_>) -> usize
    requires { AreParts parts.now }
    ensures within { result ≤ length parts.now }
    ensures below { IsUpTo aim.entry parts.now result }
    ensures above { behind_at aim.entry (slice_get parts.now result) ≡ true }
{
    let mut low = 0;
    let mut high = parts.len();
    while low < high {
        let middle = low + (high - low) / 2;
        if is_behind(aim, &parts[middle]) {
            high = middle;
        } else {
            low = middle + 1;
        }
    }
    low
}

/// The entry of a key.
pub(crate) fn find_key<'s>(parts: &'s [KeyPart], key: &[u8]) -> Option<KeyEntry<'s>>
    requires { AreParts parts.now }
    ensures { found_of result ≡ find (has_key key.now) (all_keys parts.now) }
{
    let behind = parts_to(parts, Aim::Key(key));
    if behind == 0 {
        return None;
    }
    parts[behind - 1].block.find(key)
}

/// How many keys stand below an edge.
pub(crate) fn keys_below(parts: &[KeyPart], edge: &[u8]) -> u64
    requires { AreParts parts.now }
    ensures { result ≡ count_below edge.now (all_keys parts.now) }
{
    let behind = parts_to(parts, Aim::Key(edge));
    if behind == 0 {
        return 0;
    }
    let part = &parts[behind - 1];
    part.before + part.block.place(edge)
}

/// The entry at an index, counted over all blocks.
pub(crate) fn key_at(parts: &[KeyPart], at: u64) -> KeyEntry<'_>
    requires parts { AreParts parts.now }
    requires within { at < length (all_keys parts.now) }
    ensures { slice_get (all_keys parts.now) at ≡ Some (entry_of result) }
{
    let part = &parts[parts_to(parts, Aim::At(at)) - 1];
    part.block.entry(at - part.before)
}
