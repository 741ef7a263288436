//! Reads the blocks of a set's keys.
ghost use Rattle.std.specs.Prelude.{◌≡◌, ◌≤◌, ◌+◌, ◌^◌, length, None, Ok, IfOk, IfErr};
ghost use Rattle.hse_fields.specs.BlockGiven.{lent};
ghost use Rattle.hse_fields.specs.BlockReading.{key_block_of, last_key};
ghost use Rattle.kblock.specs.Form.{AreKeyPages};
ghost use Rattle.kvset.specs.Keys.{all_keys, blocks_of, keys_in, part_slots, AreParts};
ghost use Rattle.kvset.specs.Reading.{in_slot, pages_of, slots_of, IsPart, Refuses};

use crate::block::{Block, SetFault};
use crate::keys::KeyPart;
use crate::values::put;
use hse_fields::Damaged;
use kblock::open_key_block_behind;
use std::alloc::Global;

/// So many keys at most are counted.
const MOST_KEYS: u64 = 1 << 62;

/// The last key of these blocks.
fn last_of(parts: &[KeyPart]) -> Option<&[u8]>
    requires { AreParts parts.now }
    ensures { lent result ≡ last_key None (all_keys parts.now) }
{
    match parts.last() {
        Some(part) => Some(part.block.entry(part.block.len() - 1).key),
        None => None,
    }
}

/// A block whose keys stand behind the last one, before which there are so many.
fn read_part(last: Option<&[u8]>, before: u64, block: Block) -> Result<KeyPart, SetFault>
    requires { before ≤ 2 ^ 62 }
    ensures read { IfOk result (λ part. IsPart (lent last.entry) before block part) }
    ensures refused { IfErr result
        (Refuses (in_slot block.slot (key_block_of (lent last.entry) block.bytes.items))) }
{
    match open_key_block_behind(last, block.bytes) {
        Ok(opened) => {
            if opened.len() > MOST_KEYS - before {
                return Err(SetFault::NoMemory);
            }
            Ok(KeyPart {
                slot: block.slot,
                block: opened,
                before,
            })
        }
        Err(Damaged(place)) => Err(SetFault::Damaged(block.slot, place)),
    }
}

/// The keys of these blocks, and how many there are.
pub(crate) fn read_keys(alloc: Global, blocks: Vec<Block>) -> Result<(Vec<KeyPart>, u64), SetFault>
    ensures read { IfOk result (λ x. pages_of None blocks.items ≡ Ok (blocks_of x.0.items)) }
    ensures parts { IfOk result (λ x. AreParts x.0.items) }
    ensures slots { IfOk result (λ x. part_slots x.0.items ≡ slots_of blocks.items) }
    ensures count { IfOk result (λ x. x.1 ≡ length (all_keys x.0.items)) }
    ensures refused { IfErr result (Refuses (pages_of None blocks.items)) }
{
    let mut parts = Vec::new(alloc);
    let mut count = 0;
    for block in blocks {
        let part = read_part(last_of(&parts), count, block)?;
        count += part.block.len();
        put(&mut parts, part)?;
    }
    Ok((parts, count))
}
