//! Prefixes with the numbers of their deletions, in order.
ghost use Rattle.std.specs.Prelude.{◌≡◌, ◌<◌, ◌≤◌, ◌==◌, ◌^◌, [], length as number_of_all, slice_get, None, Some, IfErr, IfOk, OnOk, OnErr};
ghost use Rattle.std.specs.List.{filter};
ghost use Rattle.std.specs.List.Sorted.{IsStrictlySortedBy};
ghost use Rattle.hse_rows.specs.rows.Meaning.{covered_at};
ghost use Rattle.hse_fields.specs.BlockReading.{prefix_block_of};
ghost use Rattle.prefix_delete.specs.Blocks.{last_prefix, Adds, IsFilled, KeepsUsed, Refuses};
ghost use Rattle.prefix_delete.specs.Prefixes.{ArePrefixes, IsUsed, AreUsed, prefix_cmp, entry_of, rows_of, with_entry};

use crate::block::block_entries;
use crate::entry::{Entry, greater, number_of, place};
use crate::fault::PrefixBlockFault;
use crate::filling::filled;
use crate::reading::last_of;
use hse_io::NoMemory;
use hse_rows::Prefix;
use std::alloc::Global;
use std::marker::Model;

/// Prefixes in the order of their bytes, each once with the greatest number of a deletion of it.
#[derive(Drop)]
pub struct PrefixList {
    entries: Vec<Entry>,
    used: [bool; 33],
}

impl Model for PrefixList {
    ghost use Rattle.std.specs.Prelude.{List};
    ghost use Rattle.prefix_delete.specs.declared.entry.Entry.{Entry};
    ghost use Rattle.prefix_delete.specs.Prefixes.{ArePrefixes, AreUsed};

    ghost Value = { List Entry };

    ghost view = { λ l. l.entries.items };

    ghost invariant = { λ l. ArePrefixes l.entries.items × AreUsed l.used l.entries.items };
}

impl PrefixList {
    /// No prefix.
    pub fn empty(alloc: Global) -> PrefixList
        ensures { result ≡ [] }
    {
        PrefixList {
            entries: Vec::new(alloc),
            used: [false; 33],
        }
    }

    /// How many prefixes there are. It takes no memory.
    pub fn len(&self) -> u64
        ensures count { result ≡ number_of_all self.now }
        ensures known { ArePrefixes self.now }
    {
        self.entries.len() as u64
    }

    /// The prefix at a place, counted in the order of the prefixes, and its number. It takes no memory.
    pub fn at(&self, place: u64) -> (&Prefix, u64)
        requires { place < number_of_all self.now }
        ensures { slice_get self.now place ≡ Some (entry_of result.0.now result.1) }
    {
        let entry = &self.entries[place as usize];
        (&entry.prefix, entry.number)
    }

    /// The greatest number of a deletion of a prefix that covers the key, by a search for each length
    /// in use. It takes no memory.
    pub fn covers(&self, key: &[u8]) -> Option<u64>
        ensures { result ≡ covered_at key.now (rows_of self.now) }
    {
        let _entries = &self.entries;
        let mut greatest: Option<u64> = None;
        for len in 0..33 {
            greatest = greater(greatest, self.number_of(key, len));
        }
        greatest
    }

    /// The number of the prefix of this length that covers the key.
    fn number_of(&self, key: &[u8], len: usize) -> Option<u64>
        requires { len < 33 }
        ensures { result
            ≡ covered_at key.now (rows_of (filter (λ entry. number_of_all entry.prefix == len) self.now)) }
    {
        if !self.used[len] {
            return None;
        }
        if len > key.len() {
            return None;
        }
        number_of(&self.entries, &key[..len])
    }

    /// Adds a prefix with the number of a deletion. Where the prefix is there the greater number stays.
    /// After `NoMemory` the list is as before.
    pub fn add(&mut self, prefix: Prefix, number: u64) -> Result<(), NoMemory>
        ensures added { OnOk result (self.new ≡ with_entry self.old (entry_of prefix number)) }
        ensures unchanged { OnErr result (self.new ≡ self.old) }
    {
        let len = prefix.bytes().len();
        put(&mut self.entries, Entry { prefix, number })?;
        self.used[len] = true;
        Ok(())
    }

    /// The block of at most slot bytes that is filled with the entries from one on, and the next one, or
    /// the number of entries where there is none. Each entry goes into the block that fits.
    pub fn to_block(&self, alloc: Global, from: u64, slot: u64) -> Result<(Vec<u8>, u64), NoMemory>
        requires from { from < number_of_all self.now }
        requires large { 2 ^ 16 ≤ slot }
        requires small { slot ≤ 2 ^ 25 }
        ensures { IfOk result (λ made. IsFilled self.now from slot made.0.items made.1) }
    {
        let (_, entries) = self.entries.split_at(from as usize);
        let (block, count) = filled(alloc, entries, slot)?;
        Ok((block, from + count))
    }

    /// Adds the entries of a block of prefix deletes behind those of the list. `Damaged` has the place
    /// of the first field of the block that is refused: of its header, an entry whose prefix has a
    /// length outside 1 to 32, at that length, an entry whose prefix does not stand above the last
    /// one, also the list's last one, at the entry, the first entry that passes the used bytes, and
    /// the used bytes where bytes of them are left over. After an error the list is as before.
    pub fn read_block(&mut self, bytes: &[u8]) -> Result<(), PrefixBlockFault>
        ensures read { OnOk result (Adds self.old self.new
            (prefix_block_of (last_prefix None self.old) bytes.now)) }
        ensures refused { IfErr result (Refuses
            (prefix_block_of (last_prefix None self.old) bytes.now)) }
        ensures unchanged { OnErr result (self.new ≡ self.old) }
    {
        let alloc = *self.entries.allocator();
        let mut more = block_entries(alloc, last_of(None, &self.entries), bytes)?;
        mark(&mut self.used, &more);
        let Ok(()) = self.entries.append(&mut more) else {
            return Err(PrefixBlockFault::NoMemory);
        };
        Ok(())
    }
}

/// Notes the lengths of these entries as lengths in use.
fn mark(used: &mut [bool; 33], entries: &[Entry])
    ensures marked { AreUsed used.new entries.now }
    ensures kept { KeepsUsed used.old used.new }
{
    for entry in entries {
        used[entry.prefix.bytes().len()] = true;
    }
}

/// Puts an entry into its place. Where its prefix is there the greater number stays.
fn put(entries: &mut Vec<Entry>, entry: Entry) -> Result<(), NoMemory>
    requires { IsStrictlySortedBy prefix_cmp entries.old.items }
    ensures added { OnOk result (entries.new.items ≡ with_entry entries.old.items entry) }
    ensures unchanged { OnErr result (entries.new.items ≡ entries.old.items) }
{
    match place(entries, entry.prefix.bytes()) {
        Ok(at) => {
            if entries[at].number <= entry.number {
                entries[at] = entry;
            }
        }
        Err(at) => entries.insert(at, entry)?,
    }
    Ok(())
}
