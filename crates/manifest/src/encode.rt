//! Puts the entries of a manifest as bytes.
ghost use Rattle.std.specs.Prelude.{◌≡◌, ◌<◌, ◌^◌, ◌++◌, length, OnOk, IfOk};
ghost use Rattle.std.specs.List.{flat_map};
ghost use Rattle.byteorder.specs.Endian.{big_bytes};
ghost use Rattle.manifest.specs.Entries.{entry_as};
ghost use Rattle.manifest.specs.Text.{base_kind, base_text, entry_text, mode_code, runs_text, store_text};
ghost use Rattle.manifest.specs.Views.{described_as, metadata_as, store_as, stores_as};
ghost use Rattle.hse_rows.specs.machine.TakenRuns.{runs_as};

use crate::entries::{BASE, CREATE, DROP};
use crate::{Base, BaseStore, Entry};
use gate_log::Batch;
use hse_fields::{put_bytes, put_u8, put_u32, put_u64};
use hse_io::NoMemory;
use hse_rows::{Mode, StoreName, TakenRun};
use std::alloc::Global;

/// Puts the low four bytes of a number behind the others.
fn put_low(into: &mut Vec<u8>, number: u64) -> Result<(), NoMemory>
    ensures { OnOk result (into.new.items ≡ into.old.items ++ big_bytes 4 number) }
{
    let bytes = number.to_be_bytes();
    put_bytes(into, &bytes[4..])
}

/// Puts the runs behind this number.
fn put_runs(into: &mut Vec<u8>, horizon: u64, runs: &[TakenRun]) -> Result<(), NoMemory>
    ensures { OnOk result
        (into.new.items ≡ into.old.items ++ runs_text horizon (runs_as runs.now)) }
{
    let mut low = horizon;
    let mut rest = runs;
    while let [run, more @ ..] = rest {
        put_low(into, run.first.saturating_sub(low).saturating_sub(1))?;
        put_u32(into, run.count)?;
        low = run.first + run.count as u64 - 1;
        rest = more;
    }
    Ok(())
}

/// A mode's byte.
fn mode_byte(mode: Mode) -> u8
    ensures { result ≡ mode_code mode }
{
    match mode {
        Mode::Plain => 0,
        Mode::Tx => 1,
    }
}

/// Puts a store but for its id.
fn put_described(
    into: &mut Vec<u8>,
    name: &StoreName,
    mode: Mode,
    prefix: u8,
) -> Result<(), NoMemory>
    ensures { OnOk result
        (into.new.items ≡ into.old.items ++ described_as name.now mode prefix) }
{
    let name = name.bytes();
    put_u8(into, name.len() as u8)?;
    put_bytes(into, name)?;
    put_u8(into, mode_byte(mode))?;
    put_u8(into, prefix)
}

/// Puts a store, which has no nodes.
fn put_store(into: &mut Vec<u8>, store: &BaseStore) -> Result<(), NoMemory>
    ensures { OnOk result
        (into.new.items ≡ into.old.items ++ store_text (store_as store.now)) }
{
    put_u64(into, store.id.0)?;
    put_described(into, &store.name, store.mode, store.prefix)?;
    put_u32(into, 0)
}

/// Puts stores, one after another.
fn put_stores(into: &mut Vec<u8>, stores: &[BaseStore]) -> Result<(), NoMemory>
    ensures { OnOk result (into.new.items
        ≡ into.old.items ++ flat_map store_text (stores_as stores.now)) }
{
    let mut rest = stores;
    while let [store, more @ ..] = rest {
        put_store(into, store)?;
        rest = more;
    }
    Ok(())
}

/// Puts runs behind their count.
fn put_taken(into: &mut Vec<u8>, horizon: u64, runs: &[TakenRun]) -> Result<(), NoMemory>
    ensures { OnOk result (into.new.items ≡ into.old.items
        ++ (big_bytes 4 (length (runs_as runs.now)) ++ runs_text horizon (runs_as runs.now))) }
{
    put_low(into, runs.len() as u64)?;
    put_runs(into, horizon, runs)
}

/// Puts stores behind their count.
fn put_live(into: &mut Vec<u8>, stores: &[BaseStore]) -> Result<(), NoMemory>
    ensures { OnOk result (into.new.items ≡ into.old.items
        ++ (big_bytes 4 (length (stores_as stores.now)) ++ flat_map store_text (stores_as stores.now))) }
{
    put_low(into, stores.len() as u64)?;
    put_stores(into, stores)
}

/// Puts what stands before the lists of a base.
fn put_head(into: &mut Vec<u8>, horizon: u64, first: u64) -> Result<(), NoMemory>
    ensures { OnOk result (into.new.items ≡ into.old.items
        ++ (big_bytes 1 base_kind ++ (big_bytes 8 horizon ++ big_bytes 8 first))) }
{
    put_u8(into, BASE)?;
    put_u64(into, horizon)?;
    put_u64(into, first)
}

/// Puts a base.
fn put_base(into: &mut Vec<u8>, base: &Base) -> Result<(), NoMemory>
    ensures { OnOk result
        (into.new.items ≡ into.old.items ++ base_text (metadata_as base.now)) }
{
    put_head(into, base.horizon, base.first)?;
    put_taken(into, base.horizon, &base.taken)?;
    put_live(into, &base.stores)
}

/// Puts an entry.
fn put_entry(into: &mut Vec<u8>, entry: &Entry) -> Result<(), NoMemory>
    ensures { OnOk result
        (into.new.items ≡ into.old.items ++ entry_text (entry_as entry.now)) }
{
    match entry {
        Entry::Base(base) => put_base(into, base),
        Entry::Create(number, name, mode, prefix) => {
            put_u8(into, CREATE)?;
            put_u64(into, *number)?;
            put_described(into, name, *mode, *prefix)
        }
        Entry::Drop(number, store) => {
            put_u8(into, DROP)?;
            put_u64(into, *number)?;
            put_u64(into, store.0)
        }
    }
}

/// The batch of an entry.
///
/// The condition: the entry has fewer than 2^32 bytes (`Entry::is_short`).
pub fn encode_entry(alloc: Global, entry: &Entry) -> Result<Batch, NoMemory>
    requires { length (entry_text (entry_as entry.now)) < 2 ^ 32 }
    ensures { IfOk result (λ batch. batch ≡ entry_text (entry_as entry.now)) }
{
    let mut payload = Vec::new(alloc);
    put_entry(&mut payload, entry)?;
    Batch::of(alloc, &payload)
}

/// The batch of a base.
///
/// The condition: the base has fewer than 2^32 bytes.
pub fn encode_base(alloc: Global, base: &Base) -> Result<Batch, NoMemory>
    requires { length (base_text (metadata_as base.now)) < 2 ^ 32 }
    ensures { IfOk result (λ batch. batch ≡ base_text (metadata_as base.now)) }
{
    let mut payload = Vec::new(alloc);
    put_base(&mut payload, base)?;
    Batch::of(alloc, &payload)
}
