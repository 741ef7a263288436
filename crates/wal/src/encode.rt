//! Commits as entries of the log, and as a batch.
ghost use Rattle.std.specs.Prelude.{◌≡◌, ◌+◌, ◌≤◌, ◌<◌, ◌^◌, ◌++◌, length, OnOk, OnErr, IfOk};
ghost use Rattle.std.specs.List.{All};
ghost use Rattle.hse_fields.specs.LogReading.{change};
ghost use Rattle.hse_fields.specs.LogText.{put, change_text, entry_text, head_text, payload_text};
ghost use Rattle.hse_rows.specs.writes.Change.{change_of, FitsLimits};
ghost use Rattle.wal.specs.Given.{kind_as};
ghost use Rattle.wal.specs.Logged.{logged_change, entry_of, entry_with, entries_of};

use crate::Commit;
use crate::kind::Kind;
use gate_log::Batch;
use hse_fields::{PUT, put_pieces, put_u32};
use hse_io::NoMemory;
use hse_rows::{ChangeRef, StoreId, WriteSet};
use std::alloc::Global;

/// Puts a put behind the others: all of it or, out of memory, nothing.
fn put_put(into: &mut Vec<u8>, store: StoreId, key: &[u8], value: &[u8]) -> Result<(), NoMemory>
    requires short { length key.now < 2 ^ 16 }
    requires fits { length value.now < 2 ^ 32 }
    ensures written { OnOk result (into.new.items
        ≡ into.old.items ++ change_text (change put store.0 key.now value.now)) }
    ensures unchanged { OnErr result (into.new.items ≡ into.old.items) }
{
    put_pieces(
        into,
        &[
            &[PUT],
            &store.0.to_be_bytes(),
            &(key.len() as u16).to_be_bytes(),
            key,
            &(value.len() as u32).to_be_bytes(),
            value,
        ],
    )
}

/// Puts a deletion or a prefix delete behind the others: all of it or, out of memory, nothing.
fn put_name(into: &mut Vec<u8>, kind: Kind, store: StoreId, name: &[u8]) -> Result<(), NoMemory>
    requires { length name.now < 2 ^ 16 }
    ensures written { OnOk result
        (into.new.items ≡ into.old.items ++ head_text (kind_as kind) store.0 name.now) }
    ensures unchanged { OnErr result (into.new.items ≡ into.old.items) }
{
    put_pieces(
        into,
        &[
            &[kind.byte()],
            &store.0.to_be_bytes(),
            &(name.len() as u16).to_be_bytes(),
            name,
        ],
    )
}

/// Puts a change behind the others: all of it or, out of memory, nothing.
fn put_change(into: &mut Vec<u8>, store: StoreId, change: ChangeRef<'_>) -> Result<(), NoMemory>
    requires limits { FitsLimits (change_of change) }
    requires fits { length (change_text (logged_change store.0 (change_of change))) < 2 ^ 32 }
    ensures written { OnOk result (into.new.items
        ≡ into.old.items ++ change_text (logged_change store.0 (change_of change.entry))) }
    ensures unchanged { OnErr result (into.new.items ≡ into.old.items) }
{
    match change {
        ChangeRef::Put(key, value) => put_put(into, store, key, value),
        ChangeRef::Del(key) => put_name(into, Kind::Del, store, key),
        ChangeRef::PDel(prefix) => put_name(into, Kind::PDel, store, prefix),
    }
}

/// Puts the entry of a commit behind the others, by its number and its writes: all of it or, out of
/// memory, nothing. So commits may be put one by one, as they come; their payload is their count, of
/// four bytes, and these bytes.
///
/// The condition: the entry has fewer than 2^32 bytes.
pub fn put_numbered(into: &mut Vec<u8>, number: u64, writes: &WriteSet) -> Result<(), NoMemory>
    requires { length (entry_text (entry_with number writes.now)) < 2 ^ 32 }
    ensures written { OnOk result
        (into.new.items ≡ into.old.items ++ entry_text (entry_with number writes.now)) }
    ensures unchanged { OnErr result (into.new.items ≡ into.old.items) }
{
    let start = into.len();
    let count = writes.len() as u32;
    put_pieces(into, &[&number.to_be_bytes(), &count.to_be_bytes()])?;
    for place in 0..writes.len() {
        let (store, change) = writes.at(place);
        if let Err(_) = put_change(into, store, change) {
            into.truncate(start);
            return Err(NoMemory);
        }
    }
    Ok(())
}

/// The same of a commit.
pub fn put_entry(into: &mut Vec<u8>, commit: &Commit) -> Result<(), NoMemory>
    requires { length (entry_text (entry_of commit.now)) < 2 ^ 32 }
    ensures written { OnOk result
        (into.new.items ≡ into.old.items ++ entry_text (entry_of commit.now)) }
    ensures unchanged { OnErr result (into.new.items ≡ into.old.items) }
{
    put_numbered(into, commit.number, &commit.writes)
}

/// The batch of these commits, in their order.
///
/// The conditions: there is a commit, none is without a change, and together they have fewer than
/// 2^32 bytes.
pub fn encode_batch(alloc: Global, entries: &[Commit]) -> Result<Batch, NoMemory>
    requires some { 1 ≤ length entries.now }
    requires changed { All (λ c. 1 ≤ length c.writes) entries.now }
    requires fits { length (payload_text (entries_of entries.now)) < 2 ^ 32 }
    ensures { IfOk result (λ batch. batch ≡ payload_text (entries_of entries.now)) }
{
    let mut payload = Vec::new(alloc);
    put_u32(&mut payload, entries.len() as u32)?;
    for commit in entries {
        put_entry(&mut payload, commit)?;
    }
    Batch::of(alloc, &payload)
}
