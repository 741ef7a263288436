ghost use Rattle.std.specs.Prelude.{◌≤◌};

use media_disk::{Disk, Fill, MemDisk};
use std::alloc::Global;
use std::process::Abort;
use std::test::Fail;

// Reads and syncs through a bound.
fn first_byte<D: Disk + Drop>(mut disk: D) -> Option<u8>
    requires { 1 ≤ D.extent disk }
{
    let mut byte = [0u8];
    disk.read(0, &mut byte).ok()?;
    disk.sync().ok()?;
    Some(byte[0])
}

fn dashes(alloc: Global) -> Result<MemDisk, Fail> {
    Ok(MemDisk::of(alloc, b"--------".to_vec(alloc)?))
}

// Two writes that overlap, unsynced.
fn overlapping(rt: &impl Abort, alloc: Global) -> Result<MemDisk, Fail> {
    let mut disk = dashes(alloc)?;
    write(rt, &mut disk, 1, b"bcde");
    write(rt, &mut disk, 2, b"XYZW");
    Ok(disk)
}

fn write(rt: &impl Abort, disk: &mut MemDisk, at: usize, bytes: &[u8]) {
    let len = disk.bytes().len();
    assert!(rt; bytes.len() <= len);
    assert!(rt; at <= len - bytes.len());
    assert!(rt; disk.write(at as u64, bytes).is_ok());
}

#[test]
fn each_fill_of_overlapping_writes(rt: HostRuntime) -> Result<(), Fail> {
    let alloc = rt.alloc();
    let fills: [(Fill, &[u8]); 4] = [
        (Fill::Old, b"--------"),
        (Fill::New, b"-bXYZW--"),
        (Fill::Torn, b"-bXY----"),
        (Fill::Byte(b'0'), b"-00000--"),
    ];
    for (fill, want) in fills {
        let disk = overlapping(&rt, alloc)?.stopped(alloc, fill)?;
        assert_eq!(rt; disk.bytes(), want);
    }
    Ok(())
}

#[test]
fn a_sync_makes_the_writes_stay(rt: HostRuntime) -> Result<(), Fail> {
    let alloc = rt.alloc();
    let mut disk = overlapping(&rt, alloc)?;
    assert!(rt; disk.sync().is_ok());
    write(&rt, &mut disk, 0, b"A");
    let len = disk.bytes().len();
    assert!(rt; len == 8);
    assert_eq!(rt; first_byte(&mut disk), Some(b'A'));
    assert_eq!(rt; disk.clock(), 6);
    assert_eq!(rt; disk.calls().len(), 6);
    assert_eq!(rt; disk.refused(), 0);
    let disk = disk.stopped(alloc, Fill::Old)?;
    assert_eq!(rt; disk.bytes(), b"AbXYZW--".as_slice());
    assert_eq!(rt; disk.clock(), 0);
    Ok(())
}

#[test]
fn a_listed_write_fails_and_is_pending(rt: HostRuntime) -> Result<(), Fail> {
    let alloc = rt.alloc();
    let mut disk = dashes(alloc)?;
    disk.fail_write(2);
    write(&rt, &mut disk, 0, b"ab");
    assert!(rt; disk.sync().is_ok());
    let len = disk.bytes().len();
    assert!(rt; len == 8);
    assert!(rt; disk.write(3, b"xyz").is_err());
    write(&rt, &mut disk, 7, b"h");
    assert_eq!(rt; disk.bytes(), b"ab-----h".as_slice());
    assert_eq!(rt; disk.listed(), 1);
    assert_eq!(rt; disk.refused(), 0);
    let disk = disk.stopped(alloc, Fill::Byte(b'?'))?;
    assert_eq!(rt; disk.bytes(), b"ab-???-?".as_slice());
    Ok(())
}
