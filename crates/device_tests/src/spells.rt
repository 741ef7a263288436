//! The bytes that entries have.
use crate::device::{CREATE, DROP, EMPTY, FULL, SIZE, loaded, with_batches};
use gate_log::Batch;
use hse_rows::{Mode, StoreId, StoreName, TakenRun};
use manifest::{Base, BaseStore, Entry, encode_entry};
use media_disk::MemDisk;
use std::alloc::Global;
use std::process::Abort;
use std::test::Fail;

/// The batch of an entry.
fn batch_of(rt: &impl Abort, alloc: Global, entry: &Entry) -> Result<Batch, Fail> {
    assert!(rt; entry.is_short());
    Ok(encode_entry(alloc, entry)?)
}

/// The base whose bytes are `FULL`.
fn full(alloc: Global) -> Result<Entry, Fail> {
    let mut taken = Vec::new(alloc);
    taken.push(TakenRun { first: 3, count: 2 })?;
    let mut stores = Vec::new(alloc);
    stores.push(BaseStore {
        id: StoreId(1),
        name: StoreName::new(alloc, b"s")?,
        mode: Mode::Plain,
        prefix: 2,
    })?;
    let base = Base {
        horizon: 1,
        first: 1,
        taken,
        stores,
    };
    Ok(Entry::Base(base))
}

/// Adds the batch of an entry to the manifest, or rolls to it.
fn add(
    rt: &impl Abort,
    alloc: Global,
    disk: &mut MemDisk,
    rolls: bool,
    entry: &Entry,
) -> Result<(), Fail> {
    let batch = batch_of(rt, alloc, entry)?;
    let mut place = loaded(rt, alloc, disk)?.manifest;
    assert!(rt; place.fits(&batch));
    let len = disk.bytes().len() as u64;
    assert!(rt; place.layout.size() <= len);
    if rolls {
        place.roll(disk, &batch)?;
    } else {
        place.log(disk, &batch)?;
    }
    Ok(())
}

#[test]
fn a_creation_and_a_drop_have_their_bytes(rt: HostRuntime) -> Result<(), Fail> {
    let alloc = rt.alloc();
    let creation = Entry::Create(1, StoreName::new(alloc, b"s")?, Mode::Plain, 2);
    assert_eq!(rt; batch_of(&rt, alloc, &creation)?.need(), 18);
    let mut disk = with_batches(&rt, alloc, 1, 1, &[&EMPTY])?;
    add(&rt, alloc, &mut disk, false, &creation)?;
    add(&rt, alloc, &mut disk, false, &Entry::Drop(2, StoreId(1)))?;
    let want = with_batches(&rt, alloc, 1, 1, &[&EMPTY, &CREATE, &DROP])?;
    assert!(rt; disk.bytes() == want.bytes());
    Ok(())
}

#[test]
fn a_base_has_its_bytes(rt: HostRuntime) -> Result<(), Fail> {
    let alloc = rt.alloc();
    let base = full(alloc)?;
    assert_eq!(rt; batch_of(&rt, alloc, &base)?.need(), 54);
    let mut disk = with_batches(&rt, alloc, 1, 1, &[&EMPTY])?;
    add(&rt, alloc, &mut disk, true, &base)?;
    let want = with_batches(&rt, alloc, 0, 2, &[&FULL])?;
    assert!(rt; disk.bytes().len() == SIZE && want.bytes().len() == SIZE);
    assert!(rt; &disk.bytes()[4_096..69_632] == &want.bytes()[4_096..69_632]);
    Ok(())
}
