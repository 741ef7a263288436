//! Tests that the values that the keys of a set name are there.
ghost use Rattle.std.specs.Prelude.{◌≡◌, length, map, Ok, IfOk, IfErr};
ghost use Rattle.std.specs.Arc.{arc_value};
ghost use Rattle.kvset.specs.Keys.{blocks_of, part_slots};
ghost use Rattle.kvset.specs.Meeting.{IsIndexed};
ghost use Rattle.kvset.specs.Reading.{met_by, met_in, Refuses};
ghost use Rattle.kvset.specs.Rows.{is_met};
ghost use Rattle.kblock.specs.Walking.{placed_pages};
ghost use Rattle.hse_fields.specs.BlockText.{header_size};

use crate::block::SetFault;
use crate::keys::KeyPart;
use hse_io::NoMemory;
use kblock::ValuePlace;
use std::alloc::Global;
use std::sync::Arc;
use vblock::ValueBlock;

/// Where the values of each block begin.
fn offsets_in(alloc: Global, values: &[Arc<ValueBlock>]) -> Result<Vec<Vec<u32>>, NoMemory>
    ensures { IfOk result (λ offsets. IsIndexed offsets.items (map arc_value values.now)) }
{
    let mut all = Vec::with_capacity(alloc, values.len())?;
    for block in values {
        all.push(block.offsets(alloc)?)?;
    }
    Ok(all)
}

/// Whether the value at this place is there, if there is a place.
fn is_met(values: &[Arc<ValueBlock>], offsets: &[Vec<u32>], place: Option<ValuePlace>) -> bool
    requires { IsIndexed offsets.now (map arc_value values.now) }
    ensures { result ≡ is_met (map arc_value values.now) place }
{
    let Some(place) = place else {
        return true;
    };
    let at = place.block as usize;
    if at >= values.len() {
        return false;
    }
    values[at]
        .find(&offsets[at], place.offset, place.len)
        .is_some()
}

/// Tests the keys of a block.
fn test_part(
    values: &[Arc<ValueBlock>],
    offsets: &[Vec<u32>],
    part: &KeyPart,
) -> Result<(), SetFault>
    requires { IsIndexed offsets.now (map arc_value values.now) }
    ensures met { IfOk result (λ _. met_in part.now.slot (map arc_value values.now)
        (placed_pages header_size part.now.block) ≡ Ok tt) }
    ensures refused { IfErr result (Refuses (met_in part.now.slot (map arc_value values.now)
        (placed_pages header_size part.now.block))) }
{
    let mut walk = part.block.walk();
    while let Some((at, entry)) = walk.next() {
        if !is_met(values, offsets, entry.value) {
            return Err(SetFault::Damaged(part.slot, at + 11 + entry.key.len() as u64));
        }
    }
    Ok(())
}

/// Tests the keys of all blocks.
pub(crate) fn test_parts(
    alloc: Global,
    values: &[Arc<ValueBlock>],
    parts: &[KeyPart],
) -> Result<(), SetFault>
    ensures met { IfOk result (λ _.
        met_by (part_slots parts.now) (map arc_value values.now) (blocks_of parts.now) ≡ Ok tt) }
    ensures refused { IfErr result (Refuses
        (met_by (part_slots parts.now) (map arc_value values.now) (blocks_of parts.now))) }
{
    let offsets = offsets_in(alloc, values)?;
    for part in parts {
        test_part(values, &offsets, part)?;
    }
    Ok(())
}
