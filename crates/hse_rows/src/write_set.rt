//! The changes of one commit, in normal form.
ghost use Rattle.std.specs.Prelude.{◌≡◌, ◌↔◌, ◌+◌, ◌^◌, ◌<◌, [], ◌∷◌, ◌++◌, length, slice_index_or, slice_get, Some, IsTrue, OnOk, OnErr, IfOk};
ghost use Rattle.hse_rows.specs.declared.write.Write.{Write as a_write};
ghost use Rattle.hse_rows.specs.writes.Change.{change_of, write_of, FitsLimits};
ghost use Rattle.std.specs.List.Sorted.{IsStrictlySortedBy};
ghost use Rattle.hse_rows.specs.writes.NormalForm.{normal_form, write_cmp, Continues};
ghost use Rattle.hse_rows.specs.writes.Charge.{charge_of, writes_bytes};

use crate::change::{Change, ChangeRef};
use crate::places::{kept_bytes, put};
use crate::store::StoreId;
use crate::write::Write;
use hse_io::NoMemory;
use std::alloc::Global;
use std::marker::Model;

/// The changes of one commit in normal form: the prefix deletes, each once, in the order of store
/// id and prefix, and then the last change of each key that no later prefix delete covers, in the
/// order of store id and key.
#[derive(Drop)]
pub struct WriteSet {
    writes: Vec<Write>,
    bytes: u64,
}

impl Model for WriteSet {
    ghost use Rattle.std.specs.Prelude.{List};
    ghost use Rattle.hse_rows.specs.declared.write.Write.{Write};

    ghost Value = { List Write };

    ghost use Rattle.hse_rows.specs.writes.Sets.{writes_of, IsSet};

    ghost view = { writes_of };

    ghost invariant = { IsSet };
}

/// What a charge has beside the bytes of the changes: the entry's number and count, and 32.
const BESIDE: u64 = 12 + 32;

/// The most bytes of changes whose charge is a `u64`.
const MOST_BYTES: u128 = (u64::MAX - BESIDE) as u128;

/// Whether changes of so many bytes have a charge that is a `u64`.
fn has_charge(bytes: u128) -> bool
    ensures { IsTrue result ↔ 12 + bytes + 32 < 2 ^ 64 }
{
    bytes <= MOST_BYTES
}

impl WriteSet {
    /// No changes.
    pub fn empty(alloc: Global) -> WriteSet
        ensures { result ≡ [] }
    {
        WriteSet {
            writes: Vec::new(alloc),
            bytes: 0,
        }
    }

    /// Adds a change of a store behind all that were added: the set is the normal form of them all.
    /// After `NoMemory` it is as before. A set whose charge would not be below 2^64 is refused so
    /// too.
    pub fn add(&mut self, store: StoreId, change: Change) -> Result<(), NoMemory>
        ensures written { OnOk result
            (self.new ≡ normal_form (self.old ++ write_of store change ∷ [])) }
        ensures continues { OnOk result (Continues self.old (write_of store change) self.new) }
        ensures unchanged { OnErr result (self.new ≡ self.old) }
    {
        let bytes = self.bytes_with(store, &change);
        if !has_charge(bytes) {
            return Err(NoMemory);
        }
        self.writes.reserve(1)?;
        put(&mut self.writes, Write { store, change });
        self.bytes = bytes as u64;
        Ok(())
    }

    /// What the commit takes of the log, in bytes: its entry's length and 32 beside. It takes no
    /// memory.
    pub fn charge(&self) -> u64
        ensures { result ≡ charge_of self.now }
    {
        self.bytes + BESIDE
    }

    /// What the commit would take of the log with one more change, in bytes. The condition is that
    /// it is below 2^64; it is at most the charge and the change's `bytes`. It takes no memory.
    pub fn charge_with(&self, store: StoreId, change: &Change) -> u64
        requires { charge_of (normal_form (self.now ++ write_of store change.now ∷ [])) < 2 ^ 64 }
        ensures { result
            ≡ charge_of (normal_form (self.now ++ write_of store change.now ∷ [])) }
    {
        (self.bytes_with(store, change) + BESIDE as u128) as u64
    }

    /// The set of these writes, which stand in the order of a normal form, and whose changes take
    /// `bytes`. It takes no memory.
    pub fn of_sorted(writes: Vec<Write>, bytes: u64) -> WriteSet
        requires rising { IsStrictlySortedBy write_cmp writes.items }
        requires counted { bytes ≡ writes_bytes writes.items }
        requires fits { charge_of writes.items < 2 ^ 64 }
        ensures { result ≡ writes.items }
    {
        WriteSet { writes, bytes }
    }

    /// How many bytes the changes would take with one more.
    fn bytes_with(&self, store: StoreId, change: &Change) -> u128
        ensures { result
            ≡ writes_bytes (normal_form (self.now ++ write_of store change.now ∷ [])) }
    {
        let kept = kept_bytes(&self.writes, self.bytes, store, change);
        kept as u128 + change.bytes() as u128
    }

    /// An equal set.
    pub fn copy(&self, alloc: Global) -> Result<WriteSet, NoMemory>
        ensures { IfOk result (λ set. set ≡ self.now) }
    {
        let writes = copy_writes(alloc, &self.writes)?;
        Ok(WriteSet {
            writes,
            bytes: self.bytes,
        })
    }

    /// The writes, in their order. It takes no memory.
    pub fn into_writes(self) -> Vec<Write>
        ensures { result.items ≡ self }
    {
        self.writes
    }

    /// How many changes the set has. It takes no memory.
    pub fn len(&self) -> u64
        ensures count { result ≡ length self.now }
        ensures normal { self.now ≡ normal_form self.now }
    {
        self.writes.len() as u64
    }

    /// The write at a place below `len`, lent. It takes no memory.
    pub fn write(&self, place: u64) -> &Write
        requires { place < length self.now }
        ensures { slice_get self.now place ≡ Some result.now }
    {
        &self.writes[place as usize]
    }

    /// The change at a place below `len`, with its store. It takes no memory.
    pub fn at(&self, place: u64) -> (StoreId, ChangeRef<'_>)
        requires { place < length self.now }
        ensures write { (d : a_write) → slice_index_or self.now place d
            ≡ write_of result.0 (change_of result.1) }
        ensures within { FitsLimits (change_of result.1) }
    {
        let write = &self.writes[place as usize];
        (write.store, write.change.lent())
    }
}

/// Equal writes, with their bytes shared.
fn copy_writes(alloc: Global, writes: &[Write]) -> Result<Vec<Write>, NoMemory>
    ensures { IfOk result (λ copy. copy.items ≡ writes.now) }
{
    let mut copy = Vec::with_capacity(alloc, writes.len())?;
    for write in writes {
        copy.push(write.share(alloc)?)?;
    }
    Ok(copy)
}
