//! Devices whose manifest is full, and those with as many stores as there may be.
use crate::recovers::PUT;
use device_layout::{Layout, Params};
use gate_log::{Batch, Region as Place, append, start};
use hse_rows::{Mode, StoreId, StoreName, TakenRun};
use manifest::{Base, BaseStore, Entry, encode_entry};
use media_disk::{Disk, MemDisk};
use recovery::{OpenFault, Region, recover};
use std::alloc::Global;
use std::process::Abort;
use std::test::Fail;

/// No device of these tests is larger.
const LARGEST: u64 = 1 << 25;

/// Starts a region with the sequence 1, and adds a batch.
fn fill_one(rt: &impl Abort, disk: &mut MemDisk, region: Place, batch: &Batch) -> Result<(), Fail> {
    assert!(rt; region.at <= LARGEST);
    assert!(rt; region.size <= LARGEST);
    assert!(rt; region.size >= 10);
    let len = disk.bytes().len() as u64;
    assert!(rt; region.at + region.size <= len);
    let mut tail = start(disk, &region, 1)?;
    let len = disk.bytes().len() as u64;
    assert!(rt; region.at + region.size <= len);
    assert!(rt; tail.place < region.size);
    append(disk, &region, &mut tail, batch)?;
    Ok(())
}

/// A device of these sizes with this base and this batch of its log.
fn device_with(
    rt: &impl Abort,
    alloc: Global,
    params: Params,
    base: &Batch,
    log: &Batch,
) -> Result<MemDisk, Fail> {
    let Some(layout) = Layout::of(params) else {
        return Err("no such sizes".into());
    };
    let size = layout.size();
    assert!(rt; size <= LARGEST);
    let mut disk = MemDisk::of(alloc, vec![in alloc; 0; size as usize]?);
    fill_one(rt, &mut disk, layout.half(1), base)?;
    fill_one(rt, &mut disk, layout.segment(1), log)?;
    let mut block = layout.superblock(alloc)?;
    assert!(rt; block.len() == 4_096);
    block[0] = 0x4F;
    let len = disk.bytes().len() as u64;
    assert!(rt; len >= 4_096);
    disk.write(0, &block)?;
    Ok(disk)
}

/// The batch of a base.
fn batch_of(rt: &impl Abort, alloc: Global, base: Base) -> Result<Batch, Fail> {
    let entry = Entry::Base(base);
    assert!(rt; entry.is_short());
    Ok(encode_entry(alloc, &entry)?)
}

/// A plain store.
fn store(alloc: Global, id: u64, name: &[u8]) -> Result<BaseStore, Fail> {
    Ok(BaseStore {
        id: StoreId(id),
        name: StoreName::new(alloc, name)?,
        mode: Mode::Plain,
        prefix: 0,
    })
}

/// How many rounds of a put, a creation and a drop leave a manifest full.
const ROUNDS: u32 = 8_182;

/// The base after the creation of the store `p` and so many rounds: no creation and no drop is below a
/// horizon, and a put stands between each two of the rounds.
fn base_of_rounds(alloc: Global) -> Result<Base, Fail> {
    let mut taken = Vec::new(alloc);
    taken.push(TakenRun { first: 1, count: 1 })?;
    for round in 0..ROUNDS {
        let first = 3 * round as u64 + 3;
        taken.push(TakenRun { first, count: 2 })?;
    }
    let mut stores = Vec::new(alloc);
    stores.push(store(alloc, 1, b"p")?)?;
    Ok(Base {
        horizon: 0,
        first: 1,
        taken,
        stores,
    })
}

/// The puts of the rounds, as a batch of the log.
fn log_of_rounds(rt: &impl Abort, alloc: Global) -> Result<Batch, Fail> {
    let mut text = Vec::new(alloc);
    text.extend_from_slice(&ROUNDS.to_be_bytes())?;
    for round in 0..ROUNDS {
        let number = 3 * round as u64 + 2;
        text.extend_from_slice(&number.to_be_bytes())?;
        text.extend_from_slice(&PUT[12..])?;
    }
    assert!(rt; text.len() < 1_000_000);
    Ok(Batch::of(alloc, &text)?)
}

#[test]
fn a_full_manifest_is_recovered(rt: HostRuntime) -> Result<(), Fail> {
    let alloc = rt.alloc();
    let params = Params {
        power: 16,
        slots: 64,
        manifest: 65_536,
        log: 4_194_304,
        stores: 1_024,
    };
    let base = batch_of(&rt, alloc, base_of_rounds(alloc)?)?;
    let log = log_of_rounds(&rt, alloc)?;
    let mut disk = device_with(&rt, alloc, params, &base, &log)?;
    let found = recover(alloc, &mut disk)?;
    assert_eq!(rt; found.number, 24_547);
    assert_eq!(rt; found.log.charges, 499_102);
    assert_eq!(rt; found.base.taken.len(), 8_183);
    assert_eq!(rt; found.manifest.tail.place, 65_519);
    let name = StoreName::new(alloc, b"p")?;
    assert_eq!(rt; found.view.get(&name, b"k"), Ok(Some(b"v".as_slice())));
    Ok(())
}

/// A base of so many stores, whose names are four letters.
fn base_of_stores(alloc: Global, count: u32) -> Result<Base, Fail> {
    let mut stores = Vec::new(alloc);
    for id in 0..count {
        let mut name = [0x61; 4];
        for (at, letter) in name.iter_mut().enumerate() {
            *letter = 0x61 + ((id >> (4 * (at as u32 & 3))) & 15) as u8;
        }
        stores.push(store(alloc, id as u64 + 1, &name)?)?;
    }
    Ok(Base {
        horizon: 5_000,
        first: 1,
        taken: Vec::new(alloc),
        stores,
    })
}

/// The size of a half, the most stores that may be live, how many its base has, and the place of the
/// field that is refused.
static HALVES: [(u64, u16, u32, Option<u64>); 3] = [
    (131_072, 4_096, 4_096, None),
    (1_048_576, 1, 1, None),
    (65_536, 256, 257, Some(4_903)),
];

#[test]
fn as_many_stores_are_live_as_there_may_be(rt: HostRuntime) -> Result<(), Fail> {
    let alloc = rt.alloc();
    for (half, most, count, want) in &HALVES {
        let params = Params {
            power: 16,
            slots: 4,
            manifest: *half,
            log: 65_536,
            stores: *most,
        };
        let base = batch_of(&rt, alloc, base_of_stores(alloc, *count)?)?;
        let log = Batch::of(alloc, &LATE)?;
        let mut disk = device_with(&rt, alloc, params, &base, &log)?;
        match recover(alloc, &mut disk) {
            Ok(found) => {
                assert!(rt; want.is_none());
                assert_eq!(rt; found.base.stores.len(), *count as usize);
                assert_eq!(rt; found.number, 5_001);
            }
            Err(fault) => {
                let place = OpenFault::NotFormed(Region::Manifest(1), want.unwrap_or(0));
                assert_eq!(rt; fault, place);
            }
        }
    }
    Ok(())
}

/// Commit 5,001 puts the value `v` at the key `k` of store 1.
const LATE: [u8; 33] = [
    0, 0, 0, 1, 0, 0, 0, 0, 0, 0, 0x13, 0x89, 0, 0, 0, 1, // one commit, its number, one change
    1, 0, 0, 0, 0, 0, 0, 0, 1, 0, 1, 0x6B, 0, 0, 0, 1, 0x76, // put, store 1, key, value
];
