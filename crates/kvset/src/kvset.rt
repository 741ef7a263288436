//! A set of rows, lent from its blocks.
ghost use Rattle.std.specs.Prelude.{◌≡◌, ◌<◌, ◌+◌, length, Ok, IfOk, IfErr};
ghost use Rattle.kvset.specs.Parts.{contents_of, contents_rows, slots_given, values_given, AreSlotted, IsSet};
ghost use Rattle.kvset.specs.Reading.{set_of, set_over, slots_over, values_over, Refuses};
ghost use Rattle.kvset.specs.Rows.{place_at};

use crate::block::{Block, SetFault};
use crate::opening::parts_of;
use crate::parts::{
    Parts, are_rows, covering, find_row, place_of, row_at, rows_len, value_place_at,
};
use crate::values::{Values, put_values};
use hse_io::NoMemory;
use hse_rows::{RowRef, RowSet, Shared};
use kblock::ValuePlace;
use std::alloc::Global;
use std::marker::Model;
use std::sync::Arc;

/// A set of rows, which several owners share.
#[derive(Drop)]
pub struct Kvset {
    parts: Arc<Parts>,
}

impl Model for Kvset {
    ghost use Rattle.std.specs.Arc.{arc_value};
    ghost use Rattle.kvset.specs.Reading.{Contents};
    ghost use Rattle.kvset.specs.Parts.{contents_of, IsSet};

    ghost Value = { Contents };

    ghost view = { λ set. contents_of (arc_value set.parts) };

    ghost invariant = { λ set. IsSet (arc_value set.parts) };
}

/// The set of these parts.
fn made(alloc: Global, parts: Parts) -> Result<Kvset, NoMemory>
    requires { IsSet parts }
    ensures { IfOk result (λ set. set ≡ contents_of parts) }
{
    let parts = Arc::new(alloc, parts)?;
    Ok(Kvset { parts })
}

/// Opens a set by its blocks, those of a device with slots of so many bytes. `Damaged` has the slot
/// and the place of the first field that is refused: block by block the prefix deletes, then the
/// keys, then the values, of which each has at most 1,048,576 bytes and 64 fewer than a slot; then,
/// key by key, the block of a value that no entry of that length begins at. Prefixes and keys ascend
/// from block to block. What the set keeps beside its blocks is a list of its prefix deletes and a
/// word or two for each block.
pub fn open_set(
    alloc: Global,
    slot: u64,
    prefixes: Vec<Block>,
    keys: Vec<Block>,
    values: Vec<Block>,
) -> Result<Kvset, SetFault>
    ensures read { IfOk result (λ set.
        set_of slot prefixes.items keys.items values.items ≡ Ok set) }
    ensures refused { IfErr result
        (Refuses (set_of slot prefixes.items keys.items values.items)) }
{
    let parts = parts_of(alloc, prefixes, keys, Values::Unread(slot, values))?;
    Ok(made(alloc, parts)?)
}

/// Opens a set whose blocks of values are those of open sets, in the order of these sets. They are
/// shared and not copied. `Damaged` has the slot and the place of the first field that is refused:
/// block by block the prefix deletes, then the keys; then, key by key, the block of a value that no
/// entry of that length begins at, counted over the blocks of all these sets.
pub fn open_over(
    alloc: Global,
    prefixes: Vec<Block>,
    keys: Vec<Block>,
    run: &[&Kvset],
) -> Result<Kvset, SetFault>
    ensures read { IfOk result (λ set. set_over prefixes.items keys.items
        (slots_over run.now) (Ok (values_over run.now)) ≡ Ok set) }
    ensures refused { IfErr result (Refuses (set_over prefixes.items keys.items
        (slots_over run.now) (Ok (values_over run.now)))) }
{
    let parts = parts_of(alloc, prefixes, keys, shared_values(alloc, run)?)?;
    Ok(made(alloc, parts)?)
}

/// The values of open sets, shared.
fn shared_values(alloc: Global, run: &[&Kvset]) -> Result<Values, NoMemory>
    ensures slotted { IfOk result AreSlotted }
    ensures slots { IfOk result (λ values. slots_given values ≡ slots_over run.now) }
    ensures values { IfOk result (λ values. values_given values ≡ Ok (values_over run.now)) }
{
    let mut slots = Vec::new(alloc);
    let mut blocks = Vec::new(alloc);
    for set in run {
        put_values(&mut slots, &mut blocks, &set.parts)?;
    }
    Ok(Values::Open(slots, blocks))
}

impl Kvset {
    /// The slots of its blocks: of prefix deletes, of keys, of values.
    pub fn slots(&self) -> &[u32]
        ensures { result.now ≡ self.now.slots }
    {
        &self.parts.slots
    }

    /// How many blocks of prefix deletes, of keys and of values there are.
    pub fn shape(&self) -> (u32, u32, u32)
        ensures counts { (result.0, result.1, result.2) ≡ self.now.shape }
        ensures all { length self.now.slots ≡ (result.0 + result.1) + result.2 }
    {
        (
            self.parts.prefix_blocks,
            self.parts.keys.len() as u32,
            self.parts.values.len() as u32,
        )
    }

    /// Where the value of the row at a place stands; `None` exactly where that row is no put.
    pub fn value_place(&self, at: u64) -> Option<ValuePlace>
        requires { at < length (contents_rows self.now) }
        ensures { result ≡ place_at self.now.prefixes self.now.keys at }
    {
        value_place_at(&self.parts, at)
    }
}

impl RowSet for Kvset {
    ghost rows = { λ set. contents_rows set };

    fn len(&self) -> u64 {
        rows_len(&self.parts)
    }

    fn row(&self, at: u64) -> RowRef<'_> {
        row_at(&self.parts, at)
    }

    fn find(&self, key: &[u8]) -> Option<RowRef<'_>> {
        find_row(&self.parts, key)
    }

    fn covered(&self, key: &[u8]) -> Option<u64> {
        covering(&self.parts, key)
    }

    fn place(&self, edge: &[u8]) -> u64 {
        place_of(&self.parts, edge)
    }

    fn known(&self) {
        are_rows(&self.parts);
    }
}

impl Shared for Kvset {
    fn share(&self, _alloc: Global) -> Result<Kvset, NoMemory> {
        Ok(Kvset {
            parts: self.parts.clone()?,
        })
    }
}
