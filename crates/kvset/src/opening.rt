//! Opens a set by its blocks.
ghost use Rattle.std.specs.Prelude.{◌≡◌, ◌++◌, map, None, Ok, IfOk, IfErr};
ghost use Rattle.prefix_delete.specs.Blocks.{in_block};
ghost use Rattle.kvset.specs.declared.block.SetFault.TheVariants.{NoMemory as OutOfMemory};
ghost use Rattle.kvset.specs.Parts.{contents_of, slots_given, values_given, AreSlotted, IsSet};
ghost use Rattle.kvset.specs.Reading.{prefixes_of, set_over, slots_of, Refuses};

use crate::block::{Block, SetFault};
use crate::meeting::test_parts;
use crate::parts::Parts;
use crate::reading::read_keys;
use crate::values::{Values, open_values, put_slots, put_value_slots};
use hse_io::NoMemory;
use prefix_delete::{PrefixBlockFault, PrefixList};
use std::alloc::Global;

/// So many prefix deletes at most are counted.
const MOST_PREFIXES: u64 = 1 << 62;

/// The prefix deletes of these blocks.
pub(crate) fn read_prefixes(alloc: Global, blocks: &[Block]) -> Result<PrefixList, SetFault>
    ensures read { IfOk result (λ list. prefixes_of None blocks.now ≡ Ok (map in_block list)) }
    ensures refused { IfErr result (Refuses (prefixes_of None blocks.now)) }
{
    let mut list = PrefixList::empty(alloc);
    for block in blocks {
        match list.read_block(&block.bytes) {
            Ok(()) => {}
            Err(PrefixBlockFault::Damaged(place)) => {
                return Err(SetFault::Damaged(block.slot, place));
            }
            Err(PrefixBlockFault::NoMemory) => return Err(SetFault::NoMemory),
        }
    }
    Ok(list)
}

/// The slots of a set's blocks.
fn slots_in(
    alloc: Global,
    prefixes: &[Block],
    keys: &[Block],
    values: &Values,
) -> Result<Vec<u32>, NoMemory>
    ensures { IfOk result (λ slots. slots.items
        ≡ slots_of prefixes.now ++ (slots_of keys.now ++ slots_given values.now)) }
{
    let mut slots = Vec::with_capacity(alloc, prefixes.len())?;
    put_slots(&mut slots, prefixes)?;
    put_slots(&mut slots, keys)?;
    put_value_slots(&mut slots, values)?;
    Ok(slots)
}

/// So many blocks, which a set can have; it cannot have more than can be counted.
fn counted(blocks: usize) -> Result<u32, SetFault>
    ensures counted { IfOk result (λ count. count ≡ blocks) }
    ensures fails { IfErr result (λ fault. fault ≡ OutOfMemory) }
{
    if blocks as u64 > u32::MAX as u64 {
        return Err(SetFault::NoMemory);
    }
    Ok(blocks as u32)
}

/// The parts of a set: its prefix deletes and keys are read from its blocks.
pub(crate) fn parts_of(
    alloc: Global,
    prefix_blocks: Vec<Block>,
    key_blocks: Vec<Block>,
    values: Values,
) -> Result<Parts, SetFault>
    requires { AreSlotted values }
    ensures set { IfOk result IsSet }
    ensures read { IfOk result (λ parts. set_over prefix_blocks.items key_blocks.items
        (slots_given values) (values_given values) ≡ Ok (contents_of parts)) }
    ensures refused { IfErr result (Refuses (set_over prefix_blocks.items key_blocks.items
        (slots_given values) (values_given values))) }
{
    let slots = slots_in(alloc, &prefix_blocks, &key_blocks, &values)?;
    let prefix_count = counted(prefix_blocks.len())?;
    counted(key_blocks.len())?;
    let prefixes = read_prefixes(alloc, &prefix_blocks)?;
    let (keys, count) = read_keys(alloc, key_blocks)?;
    let opened = open_values(alloc, values)?;
    counted(opened.len())?;
    test_parts(alloc, &opened, &keys)?;
    if prefixes.len() > MOST_PREFIXES {
        return Err(SetFault::NoMemory);
    }
    Ok(Parts {
        slots,
        prefix_blocks: prefix_count,
        prefixes,
        keys,
        count,
        values: opened,
    })
}
