//! Devices that are cut off at each byte of a part, with zeros or garbage behind.
use crate::device::{CREATE, EMPTY};
use crate::recovers::device;
use crate::views::{BOTH, CREATE_T, PDEL, has};
use media_disk::{MemDisk, Work};
use recovery::{OpenFault, Recovered, Region, recover};
use std::alloc::Global;
use std::process::Abort;
use std::test::Fail;

/// Where half 1 of the manifest begins.
const HALF: usize = 69_632;

/// Where the log's segment 1 begins.
const SEGMENT: usize = 200_704;

/// How many bytes each of them has.
const LONG: usize = 65_536;

/// Where the gate of the log's second batch is.
const SECOND: usize = SEGMENT + 64;

/// Pseudo-random bytes.
pub(crate) fn noise(alloc: Global, seed: u64, size: usize) -> Result<Vec<u8>, Fail> {
    let mut state = seed;
    let mut bytes = vec![in alloc; 0; size]?;
    for byte in bytes.iter_mut() {
        state = state
            .wrapping_mul(6_364_136_223_846_793_005)
            .wrapping_add(1_442_695_040_888_963_407);
        *byte = (state >> 56) as u8;
    }
    Ok(bytes)
}

/// Pseudo-random bytes, all of them even and at least 128: none is an open gate, a kind, a mode or a
/// letter of a name, and no right number begins with one.
pub(crate) fn garbage(alloc: Global, seed: u64, size: usize) -> Result<Vec<u8>, Fail> {
    let mut bytes = noise(alloc, seed, size)?;
    for byte in bytes.iter_mut() {
        *byte = (*byte | 0x80) & 0xFE;
    }
    Ok(bytes)
}

/// The bytes of a device with two stores and two commits.
pub(crate) fn two_stores(rt: &impl Abort, alloc: Global) -> Result<Vec<u8>, Fail> {
    device(rt, alloc, &[&EMPTY, &CREATE, &CREATE_T], &[&BOTH, &PDEL])
}

/// These bytes up to this place, the others behind it up to the end, and these again from there on.
pub(crate) fn cut(
    alloc: Global,
    bytes: &[u8],
    place: usize,
    end: usize,
    behind: &[u8],
) -> Result<Vec<u8>, Fail> {
    let Some(front) = bytes.get(..place) else {
        return Err("no such place".into());
    };
    let Some(filling) = behind.get(..end.saturating_sub(place)) else {
        return Err("too few bytes".into());
    };
    let Some(rest) = bytes.get(end..) else {
        return Err("no such end".into());
    };
    let mut all = front.to_vec(alloc)?;
    all.extend_from_slice(filling)?;
    all.extend_from_slice(rest)?;
    Ok(all)
}

/// What the device of these bytes stores; nothing is written.
pub(crate) fn read_only(
    rt: &impl Abort,
    alloc: Global,
    bytes: &[u8],
) -> Result<Result<Recovered, OpenFault>, Fail> {
    let mut disk = MemDisk::of(alloc, bytes.to_vec(alloc)?);
    let found = recover(alloc, &mut disk);
    assert!(rt; disk.bytes() == bytes);
    for call in disk.calls().iter() {
        assert!(rt; matches!(&call.work, Work::Size | Work::Read | Work::Sync));
    }
    Ok(found)
}

/// The first and the last of some cuts, and the number that is recovered, or the part and the place that
/// are refused.
pub(crate) type Row = (usize, usize, Result<u64, (Region, u64)>);

/// What a table says of a cut.
pub(crate) fn wanted(table: &[Row], cut: usize) -> Option<Result<u64, OpenFault>> {
    for (first, last, want) in table {
        if *first <= cut && cut <= *last {
            return Some(match want {
                Ok(number) => Ok(*number),
                Err((region, place)) => Err(OpenFault::NotFormed(*region, *place)),
            });
        }
    }
    None
}

/// Cuts off a part at each of so many bytes, and finds what the table says.
fn cut_each(
    rt: &impl Abort,
    alloc: Global,
    at: usize,
    count: usize,
    behind: &[u8],
    table: &[Row],
) -> Result<(), Fail> {
    let bytes = two_stores(rt, alloc)?;
    for place in 0..count {
        let from = at.saturating_add(place);
        let bytes = cut(alloc, &bytes, from, at.saturating_add(LONG), behind)?;
        let found = read_only(rt, alloc, &bytes)?.map(|found| found.number);
        assert_eq!(rt; (place, Some(found)), (place, wanted(table, place)));
    }
    Ok(())
}

/// Zeros behind each byte of the manifest's half.
static HALF_ZEROS: [Row; 18] = [
    (0, 0, Err((Region::Manifest(0), 0))), // the head
    (1, 8, Err((Region::Manifest(1), 1))), // an even sequence
    (9, 9, Err((Region::Manifest(0), 0))), // the first gate
    (10, 13, Err((Region::Manifest(1), 14))), // a batch of no bytes
    (14, 14, Err((Region::Manifest(1), 14))), // the kind
    (15, 30, Err((Region::Manifest(1), 23))), // the first segment
    (31, 39, Err((Region::Log(1), 18))), // a base alone: the number 1 comes next
    (40, 44, Err((Region::Manifest(1), 44))), // no kind, or an unknown one
    (45, 52, Err((Region::Manifest(1), 45))), // the number 0
    (53, 53, Err((Region::Manifest(1), 53))), // a name of no bytes
    (54, 54, Err((Region::Manifest(1), 54))), // a byte that no name has
    (55, 57, Err((Region::Log(1), 18))), // one store: the number 2 comes next
    (58, 62, Err((Region::Manifest(1), 62))),
    (63, 70, Err((Region::Manifest(1), 63))),
    (71, 71, Err((Region::Manifest(1), 71))),
    (72, 72, Err((Region::Manifest(1), 72))),
    (73, 74, Ok(4)), // another prefix length of the second store
    (75, 75, Ok(4)),
];

/// Garbage behind each byte of the manifest's half.
static HALF_GARBAGE: [Row; 24] = [
    (0, 0, Err((Region::Manifest(0), 0))),
    (1, 8, Err((Region::Manifest(1), 1))),
    (9, 9, Err((Region::Manifest(0), 0))),
    (10, 11, Err((Region::Manifest(1), 10))), // the batch does not lie inside
    (12, 14, Err((Region::Manifest(1), 14))), // it does: the kind
    (15, 15, Err((Region::Manifest(1), 15))), // a horizon above the greatest one
    (16, 30, Err((Region::Manifest(1), 23))),
    (31, 38, Err((Region::Manifest(1), 39))), // a run or a store that is cut off
    (39, 39, Err((Region::Log(1), 18))),
    (40, 41, Err((Region::Manifest(1), 40))),
    (42, 44, Err((Region::Manifest(1), 44))),
    (45, 45, Err((Region::Manifest(1), 45))), // a number above the greatest one
    (46, 53, Err((Region::Manifest(1), 53))), // a name that is too long
    (54, 54, Err((Region::Manifest(1), 54))),
    (55, 55, Err((Region::Manifest(1), 55))), // the mode
    (56, 56, Err((Region::Manifest(1), 56))), // the prefix length
    (57, 57, Err((Region::Log(1), 18))),
    (58, 59, Err((Region::Manifest(1), 58))),
    (60, 62, Err((Region::Manifest(1), 62))),
    (63, 63, Err((Region::Manifest(1), 63))),
    (64, 71, Err((Region::Manifest(1), 71))),
    (72, 72, Err((Region::Manifest(1), 72))),
    (73, 73, Err((Region::Manifest(1), 73))),
    (74, 74, Err((Region::Manifest(1), 74))),
];

/// Zeros behind each byte of the log.
static LOG_ZEROS: [Row; 19] = [
    (0, 8, Err((Region::Log(1), 0))), // the head, and another sequence
    (9, 9, Ok(2)), // no batch
    (10, 17, Err((Region::Log(1), 14))), // no count, or no commit
    (18, 25, Err((Region::Log(1), 18))), // not the next number
    (26, 29, Err((Region::Log(1), 26))), // no change
    (30, 30, Err((Region::Log(1), 30))), // the kind
    (31, 40, Err((Region::Log(1), 39))), // a key of no bytes
    (41, 45, Err((Region::Log(1), 46))), // a value of no bytes, and the next kind
    (46, 55, Err((Region::Log(1), 47))), // the kind, and a store below the last one
    (56, 57, Err((Region::Log(1), 56))),
    (58, 62, Err((Region::Log(1), 10))), // a value of no bytes: one is left over
    (63, 64, Ok(3)), // the second batch is lost
    (65, 72, Err((Region::Log(1), 69))),
    (73, 80, Err((Region::Log(1), 73))),
    (81, 84, Err((Region::Log(1), 81))),
    (85, 85, Err((Region::Log(1), 85))),
    (86, 95, Err((Region::Log(1), 94))), // a prefix of no bytes
    (96, 96, Ok(4)), // another prefix
    (97, 97, Ok(4)),
];

/// Garbage behind each byte of the log.
static LOG_GARBAGE: [Row; 21] = [
    (0, 8, Err((Region::Log(1), 0))),
    (9, 9, Ok(2)),
    (10, 11, Err((Region::Log(1), 10))), // the batch does not lie inside
    (12, 25, Err((Region::Log(1), 18))),
    (26, 30, Err((Region::Log(1), 30))),
    (31, 39, Err((Region::Log(1), 39))), // a key that is too long
    (40, 40, Err((Region::Log(1), 41))), // a key that is cut off
    (41, 43, Err((Region::Log(1), 42))), // a value that is too long
    (44, 45, Err((Region::Log(1), 46))), // a value that is cut off
    (46, 47, Err((Region::Log(1), 47))),
    (48, 56, Err((Region::Log(1), 56))),
    (57, 57, Err((Region::Log(1), 58))),
    (58, 60, Err((Region::Log(1), 59))),
    (61, 62, Err((Region::Log(1), 63))),
    (63, 64, Ok(3)),
    (65, 66, Err((Region::Log(1), 65))),
    (67, 80, Err((Region::Log(1), 73))),
    (81, 85, Err((Region::Log(1), 85))),
    (86, 95, Err((Region::Log(1), 94))), // a prefix that is too long
    (96, 96, Ok(4)),
    (97, 97, Ok(4)),
];

#[test]
fn a_manifest_that_is_cut_off_is_refused_at_its_field(rt: HostRuntime) -> Result<(), Fail> {
    let alloc = rt.alloc();
    let zeros = vec![in alloc; 0; LONG]?;
    cut_each(&rt, alloc, HALF, 76, &zeros, &HALF_ZEROS)?;
    let garbage = garbage(alloc, 3, LONG)?;
    cut_each(&rt, alloc, HALF, 75, &garbage, &HALF_GARBAGE)
}

#[test]
fn a_log_that_is_cut_off_is_refused_at_its_field(rt: HostRuntime) -> Result<(), Fail> {
    let alloc = rt.alloc();
    let zeros = vec![in alloc; 0; LONG]?;
    cut_each(&rt, alloc, SEGMENT, 98, &zeros, &LOG_ZEROS)?;
    let garbage = garbage(alloc, 4, LONG)?;
    cut_each(&rt, alloc, SEGMENT, 98, &garbage, &LOG_GARBAGE)
}

/// A batch whose gate is still closed may end anywhere: the device is as it was before it.
#[test]
fn a_log_that_is_cut_off_behind_a_closed_gate_loses_that_batch(
    rt: HostRuntime,
) -> Result<(), Fail> {
    let alloc = rt.alloc();
    let garbage = garbage(alloc, 5, LONG)?;
    let mut bytes = two_stores(&rt, alloc)?;
    let Some(gate) = bytes.get_mut(SECOND) else {
        return Err("no such place".into());
    };
    *gate = 0;
    for place in 0..34usize {
        let from = (SECOND + 1).saturating_add(place);
        let bytes = cut(alloc, &bytes, from, SEGMENT + LONG, &garbage)?;
        let found = read_only(&rt, alloc, &bytes)??;
        assert_eq!(rt; found.number, 3);
        assert_eq!(rt; found.log.tail.place, 64);
        assert!(rt; has(alloc, &found, b"s", Some(b"v".as_slice()))?);
        assert!(rt; has(alloc, &found, b"t", Some(b"w".as_slice()))?);
    }
    Ok(())
}

/// The values of the commits, and the one that zeros leave of the second.
const V: &[u8] = &[0x76];

const W: &[u8] = &[0x77];

const ZERO: &[u8] = &[0];

/// A cut of the log with zeros behind, and what the key `k` of each store has then.
static VALUES: [(usize, Option<&[u8]>, Option<&[u8]>); 5] = [
    (9, None, None),
    (63, Some(V), Some(ZERO)),
    (64, Some(V), Some(W)),
    (96, Some(V), Some(W)),
    (97, None, Some(W)),
];

#[test]
fn a_log_that_is_cut_off_at_a_batch_keeps_those_before_it(rt: HostRuntime) -> Result<(), Fail> {
    let alloc = rt.alloc();
    let zeros = vec![in alloc; 0; LONG]?;
    let bytes = two_stores(&rt, alloc)?;
    for (place, plain, other) in &VALUES {
        let from = SEGMENT.saturating_add(*place);
        let bytes = cut(alloc, &bytes, from, SEGMENT + LONG, &zeros)?;
        let found = read_only(&rt, alloc, &bytes)??;
        assert!(rt; has(alloc, &found, b"s", *plain)?);
        assert!(rt; has(alloc, &found, b"t", *other)?);
    }
    Ok(())
}

/// A shorter device has too few bytes for its layout.
#[test]
fn a_device_that_ends_within_a_part_is_refused_behind_its_superblock(
    rt: HostRuntime,
) -> Result<(), Fail> {
    let alloc = rt.alloc();
    let bytes = two_stores(&rt, alloc)?;
    for at in &[HALF, SEGMENT] {
        for place in 0..98usize {
            let Some(front) = bytes.get(..at.saturating_add(place)) else {
                return Err("no such size".into());
            };
            let fault = read_only(&rt, alloc, front)?.err();
            assert_eq!(rt; fault, Some(OpenFault::NotFormed(Region::Super, 4_096)));
        }
    }
    Ok(())
}
