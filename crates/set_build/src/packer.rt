//! Packs rows.
ghost use Rattle.std.specs.Prelude.{◌≡◌, ◌≤◌, ◌^◌, IfOk, OnErr, OnOk};
ghost use Rattle.hse_fields.specs.BlockReading.{key_entry};
ghost use Rattle.kblock.specs.Entries.{entry_of};
ghost use Rattle.hse_rows.specs.rows.RowSets.{row_of};
ghost use Rattle.set_build.specs.Packs.{AreCounted, MayFollow, Packs, seen};
ghost use Rattle.set_build.specs.SetText.{Pushed, nothing, text_of, with_row};

use crate::keys::{finish_keys, push_key};
use crate::packed::Packed;
use crate::prefixes::{finish_prefixes, push_prefix};
use crate::values::{finish_values, push_put};
use hse_fields::ValuePlace;
use hse_io::NoMemory;
use hse_rows::{ChangeRef, RowRef};
use kblock::{KeyBlockBuilder, KeyEntry};
use prefix_delete::PrefixList;
use std::alloc::Global;
use vblock::ValueBlockBuilder;

/// The rows of a set that is being packed: its prefix deletes, and the blocks of its keys and values,
/// of which the last of each kind is being filled.
#[derive(Drop)]
pub struct Packer {
    slot: u64,
    writes_values: bool,
    prefixes: PrefixList,
    keys: Vec<KeyBlockBuilder>,
    values: Vec<ValueBlockBuilder>,
}

impl Packer {
    /// A packer of blocks of at most so many bytes, without rows. Where it does not write values,
    /// each put comes with the place of its value.
    pub fn new(alloc: Global, slot: u64, values: bool) -> Result<Packer, NoMemory>
        requires large { 2 ^ 16 ≤ slot }
        requires small { slot ≤ 2 ^ 25 }
        ensures { IfOk result (Packs (nothing slot values)) }
    {
        Ok(Packer {
            slot,
            writes_values: values,
            prefixes: PrefixList::empty(alloc),
            keys: Vec::new(alloc),
            values: Vec::new(alloc),
        })
    }

    /// Adds a row behind the others, in the order of a set. The place is that of a put's value,
    /// where values are not written; else it is not looked at. After `NoMemory` the packer holds the
    /// rows that it held.
    pub fn push(&mut self, row: RowRef<'_>, place: Option<ValuePlace>) -> Result<(), NoMemory>
        requires { (p : Pushed) × Packs p self.old × MayFollow p (row_of row) place }
        ensures pushed { (p : Pushed) → Packs p self.old → MayFollow p (row_of row.entry) place
            → OnOk result (Packs (with_row p (row_of row.entry) place) self.new) }
        ensures unchanged { (p : Pushed) → Packs p self.old → OnErr result (Packs p self.new) }
    {
        let number = row.number;
        match row.change {
            ChangeRef::PDel(prefix) => {
                push_prefix(*self.keys.allocator(), &mut self.prefixes, prefix, number)
            }
            ChangeRef::Del(key) => push_key(&mut self.keys, self.slot, &entry(number, key, None)),
            ChangeRef::Put(key, value) => {
                if self.writes_values {
                    let entry = entry(number, key, None);
                    return push_put(&mut self.values, &mut self.keys, self.slot, entry, value);
                }
                push_key(&mut self.keys, self.slot, &entry(number, key, place))
            }
        }
    }

    /// The blocks of the rows, each as full as it goes.
    pub fn finish(self) -> Result<Packed, NoMemory>
        requires { (p : Pushed) × Packs p self }
        ensures packed { (p : Pushed) → Packs p self
            → IfOk result (λ packed. seen packed ≡ text_of p) }
        ensures counted { (p : Pushed) → Packs p self → IfOk result (AreCounted p) }
    {
        let alloc = *self.keys.allocator();
        Ok(Packed {
            prefixes: finish_prefixes(alloc, &self.prefixes, self.slot)?,
            keys: finish_keys(alloc, self.keys)?,
            values: finish_values(alloc, self.values)?,
        })
    }
}

/// The entry of a key.
fn entry(number: u64, key: &[u8], value: Option<ValuePlace>) -> KeyEntry<'_>
    ensures { entry_of result ≡ key_entry number key.now value }
{
    KeyEntry { number, key, value }
}
