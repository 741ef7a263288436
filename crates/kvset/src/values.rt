//! The blocks of a set's values: those that are read, and those of open sets.
ghost use Rattle.std.specs.Prelude.{◌≡◌, ◌++◌, ◌∷◌, [], length, map, Ok, IfOk, IfErr, OnOk};
ghost use Rattle.std.specs.Arc.{arc_value};
ghost use Rattle.kvset.specs.Parts.{own_value_slots, slots_given, values_given, values_in, IsSet};
ghost use Rattle.kvset.specs.Reading.{slots_of, values_of, Refuses};

use crate::block::{Block, SetFault};
use crate::parts::Parts;
use hse_fields::Damaged;
use hse_io::NoMemory;
use std::alloc::Global;
use std::sync::Arc;
use vblock::{ValueBlock, open_value_block};

/// The blocks of a set's values.
#[derive(Drop)]
pub(crate) enum Values {
    /// They are to be read, of a device with slots of so many bytes.
    Unread(u64, Vec<Block>),
    /// They are open already; the slots are theirs.
    Open(Vec<u32>, Vec<Arc<ValueBlock>>),
}

/// A block of values that several sets may own.
fn owned(alloc: Global, values: ValueBlock) -> Result<Arc<ValueBlock>, NoMemory>
    ensures { IfOk result (λ owned. arc_value owned ≡ values) }
{
    Ok(Arc::new(alloc, values)?)
}

/// Puts a part of a set behind others.
pub(crate) fn put<T: Drop>(parts: &mut Vec<T>, part: T) -> Result<(), NoMemory>
    ensures { OnOk result (parts.new.items ≡ parts.old.items ++ part ∷ []) }
{
    parts.push(part)?;
    Ok(())
}

/// The values of these blocks, of a device with slots of so many bytes.
fn read_values(
    alloc: Global,
    slot: u64,
    blocks: Vec<Block>,
) -> Result<Vec<Arc<ValueBlock>>, SetFault>
    ensures read { IfOk result (λ opened.
        values_of slot blocks.items ≡ Ok (map arc_value opened.items)) }
    ensures refused { IfErr result (Refuses (values_of slot blocks.items)) }
{
    let mut opened = Vec::new(alloc);
    for block in blocks {
        match open_value_block(slot, block.bytes) {
            Ok(values) => put(&mut opened, owned(alloc, values)?)?,
            Err(Damaged(place)) => return Err(SetFault::Damaged(block.slot, place)),
        }
    }
    Ok(opened)
}

/// The values, read where they are not open.
pub(crate) fn open_values(alloc: Global, values: Values) -> Result<Vec<Arc<ValueBlock>>, SetFault>
    ensures read { IfOk result (λ opened. values_given values ≡ Ok (map arc_value opened.items)) }
    ensures refused { IfErr result (Refuses (values_given values)) }
{
    match values {
        Values::Unread(slot, blocks) => read_values(alloc, slot, blocks),
        Values::Open(_, blocks) => Ok(blocks),
    }
}

/// The slots of these blocks behind others.
pub(crate) fn put_slots(slots: &mut Vec<u32>, blocks: &[Block]) -> Result<(), NoMemory>
    ensures { OnOk result (slots.new.items ≡ slots.old.items ++ slots_of blocks.now) }
{
    for block in blocks {
        slots.push(block.slot)?;
    }
    Ok(())
}

/// The slots of values behind others.
pub(crate) fn put_value_slots(slots: &mut Vec<u32>, values: &Values) -> Result<(), NoMemory>
    ensures { OnOk result (slots.new.items ≡ slots.old.items ++ slots_given values.now) }
{
    match values {
        Values::Unread(_, blocks) => put_slots(slots, blocks)?,
        Values::Open(theirs, _) => slots.extend_from_slice(theirs)?,
    }
    Ok(())
}

/// One more owner of each of these blocks, behind others.
fn put_blocks(into: &mut Vec<Arc<ValueBlock>>, blocks: &[Arc<ValueBlock>]) -> Result<(), NoMemory>
    ensures { OnOk result (map arc_value into.new.items
        ≡ map arc_value into.old.items ++ map arc_value blocks.now) }
{
    for block in blocks {
        into.push(block.clone()?)?;
    }
    Ok(())
}

/// The values of a set behind others, shared.
pub(crate) fn put_values(
    slots: &mut Vec<u32>,
    blocks: &mut Vec<Arc<ValueBlock>>,
    parts: &Parts,
) -> Result<(), NoMemory>
    requires { IsSet parts.now }
    ensures slots { OnOk result (slots.new.items ≡ slots.old.items ++ own_value_slots parts.now) }
    ensures blocks { OnOk result (map arc_value blocks.new.items
        ≡ map arc_value blocks.old.items ++ values_in parts.now) }
    ensures even { OnOk result (length slots.old.items ≡ length blocks.old.items
        → length slots.new.items ≡ length blocks.new.items) }
{
    let from = parts.prefix_blocks as usize + parts.keys.len();
    slots.extend_from_slice(&parts.slots[from..])?;
    put_blocks(blocks, &parts.values)
}
