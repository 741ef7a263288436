//! The devices and engines of the tests.
ghost use Rattle.std.specs.Prelude.{◌≡◌, IfOk, IsSome};
ghost use Rattle.kvdb.specs.Sides.{device_in};

use back::Back;
use device_layout::Params;
use engine_state::WriteFault;
use hse_rows::{ChangeRef, Mode, StoreId, StoreName, TakenRun};
use kvdb::Kvdb;
use manifest::{Base, BaseStore, Entry};
use media_disk::MemDisk;
use recovery::{Recovered, format, recover};
use std::alloc::Global;
use std::process::Abort;
use std::test::Fail;

/// What the devices are made with: the least that there may be, and up to three stores.
pub(crate) const PARAMS: Params = Params {
    power: 16,
    slots: 4,
    manifest: 65_536,
    log: 65_536,
    stores: 3,
};

/// A live store of this name and mode, made by this number.
fn store(alloc: Global, number: u64, name: &[u8], mode: Mode) -> Result<BaseStore, Fail> {
    Ok(BaseStore {
        id: StoreId(number),
        name: StoreName::new(alloc, name)?,
        mode,
        prefix: 0,
    })
}

/// The base behind the numbers 1 and 2, with the stores `t` and `s`.
fn base(alloc: Global) -> Result<Base, Fail> {
    let mut taken = Vec::new(alloc);
    taken.push(TakenRun { first: 1, count: 2 })?;
    let mut stores = Vec::new(alloc);
    stores.push(store(alloc, 1, b"t", Mode::Tx)?)?;
    stores.push(store(alloc, 2, b"s", Mode::Plain)?)?;
    Ok(Base {
        horizon: 0,
        first: 1,
        taken,
        stores,
    })
}

/// The device with a store of this name and mode more.
fn with_store(
    rt: &impl Abort,
    alloc: Global,
    disk: MemDisk,
    name: &[u8],
    mode: Mode,
) -> Result<MemDisk, Fail> {
    let mut disk = disk;
    let Recovered {
        view: _,
        layout,
        log,
        manifest,
        base: _,
        number,
        moment: _,
    } = recover(alloc, &mut disk)?;
    let len = disk.bytes().len() as u64;
    assert!(rt; log.region.at <= 1_000_000);
    assert!(rt; log.region.size <= 1_000_000);
    assert!(rt; log.region.at + log.region.size <= len);
    assert!(rt; manifest.layout.size() <= len);
    let mut back = Back {
        disk,
        layout,
        log,
        manifest,
    };
    let number = number.saturating_add(1);
    let entry = Entry::Create(number, StoreName::new(alloc, name)?, mode, 0);
    let after = base(alloc)?;
    assert!(rt; entry.is_short());
    assert!(rt; after.is_short());
    let plan = back.plan_entry(alloc, &entry, &after)?;
    back.create_store(None, &plan)?;
    Ok(back.disk)
}

/// The bytes of a new device of these sizes with the `tx` store `t` of id 1 and the `plain` store `s` of id 2.
pub(crate) fn formed_of(rt: &impl Abort, alloc: Global, params: &Params) -> Result<Vec<u8>, Fail> {
    let mut disk = MemDisk::new(alloc);
    format(alloc, &mut disk, params)?;
    let disk = with_store(rt, alloc, disk, b"t", Mode::Tx)?;
    let disk = with_store(rt, alloc, disk, b"s", Mode::Plain)?;
    Ok(disk.bytes().to_vec(alloc)?)
}

/// This of the least sizes that there may be.
pub(crate) fn formed(rt: &impl Abort, alloc: Global) -> Result<Vec<u8>, Fail> {
    formed_of(rt, alloc, &PARAMS)
}

/// The engine of a disk.
pub(crate) fn engine_of(alloc: Global, disk: MemDisk) -> Result<Kvdb<MemDisk>, Fail>
    ensures { IfOk result (λ db. IsSome (device_in db.side)) }
{
    match Kvdb::start(alloc, disk) {
        Ok(db) => Ok(db),
        Err((_, fault)) => Err(fault.into()),
    }
}

/// The engine of a device of these bytes.
pub(crate) fn engine(alloc: Global, bytes: &[u8]) -> Result<Kvdb<MemDisk>, Fail>
    ensures { IfOk result (λ db. IsSome (device_in db.side)) }
{
    engine_of(alloc, MemDisk::of(alloc, bytes.to_vec(alloc)?))
}

/// Whether the key of the store `s` has this value now.
pub(crate) fn has(
    alloc: Global,
    db: &Kvdb<MemDisk>,
    key: &[u8],
    want: Option<&[u8]>,
) -> Result<bool, Fail> {
    let name = StoreName::new(alloc, b"s")?;
    match db.view().get(&name, key) {
        Ok(value) => Ok(value == want),
        Err(_) => Ok(false),
    }
}

/// Puts a value at a key of the store `s`.
pub(crate) fn put(
    alloc: Global,
    db: &mut Kvdb<MemDisk>,
    key: &[u8],
    value: &[u8],
) -> Result<Result<u64, WriteFault>, Fail>
    ensures { db.new.side ≡ db.old.side }
{
    let name = StoreName::new(alloc, b"s")?;
    Ok(db.write_plain(alloc, &name, ChangeRef::Put(key, value)))
}

/// Ends an engine as it is.
pub(crate) fn leave(db: Kvdb<MemDisk>) {
    let _disk = db.stop();
}
