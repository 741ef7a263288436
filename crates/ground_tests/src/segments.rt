use gate_log::{Batch, Region, append, read_front, start};
use hse_rows::{Change, ChangeRef, Key, StoreId, TakenRun, Value, WriteSet};
use media_disk::MemDisk;
use std::alloc::Global;
use std::process::Abort;
use std::test::Fail;
use wal::{
    Commit, Segment, SegmentFault, StorePrefix, charge_is_length, encode_batch, put_entry,
    segment_in,
};

/// The size of the tests' devices.
const SIZE: u64 = 144;

/// A started region with the batch of commit 2: a put of store 1, key `k`, value `v`.
const PUT: [u8; 48] = [
    0x4f, 0, 0, 0, 0, 0, 0, 0, 1, // head gate, sequence
    0x4f, 0, 0, 0, 0x21, // gate, 33 bytes of payload
    0, 0, 0, 1, // one entry
    0, 0, 0, 0, 0, 0, 0, 2, 0, 0, 0, 1, // number 2, one change
    1, 0, 0, 0, 0, 0, 0, 0, 1, // put, store 1
    0, 1, 0x6b, 0, 0, 0, 1, 0x76, // key, value
    0, // closed gate
];

/// A started region with the batch of commit 2: the prefix deletes `bb` and `a` of store 1, which
/// are out of order.
const DELETES: [u8; 56] = [
    0x4f, 0, 0, 0, 0, 0, 0, 0, 1, // head gate, sequence
    0x4f, 0, 0, 0, 0x29, // gate, 41 bytes of payload
    0, 0, 0, 1, // one entry
    0, 0, 0, 0, 0, 0, 0, 2, 0, 0, 0, 2, // number 2, two changes
    3, 0, 0, 0, 0, 0, 0, 0, 1, // prefix delete, store 1
    0, 2, 0x62, 0x62, // prefix bb
    3, 0, 0, 0, 0, 0, 0, 0, 1, // prefix delete, store 1
    0, 1, 0x61, // prefix a
    0, // closed gate
];

/// The prefixes of store 1 have two bytes, those of store 2 three.
const LIVE: [StorePrefix; 2] = [
    StorePrefix {
        store: StoreId(2),
        length: 3,
    },
    StorePrefix {
        store: StoreId(1),
        length: 2,
    },
];

fn commit(alloc: Global) -> Result<Commit, Fail> {
    let mut writes = WriteSet::empty(alloc);
    let key = Key::new(alloc, b"k")?;
    let value = Value::new(alloc, b"v", 1)?;
    writes.add(StoreId(1), Change::Put(key, value))?;
    Ok(Commit { number: 2, writes })
}

/// The batch of that commit.
fn batch_of(rt: &impl Abort, alloc: Global) -> Result<Batch, Fail> {
    let commit = commit(alloc)?;
    let charge = commit.writes.charge();
    assert!(rt; charge == 61);
    let count = commit.writes.len();
    assert!(rt; count == 1);
    charge_is_length();
    Ok(encode_batch(alloc, &[commit])?)
}

/// The segment in a region of this size that begins with these bytes, one of them changed.
fn segment(
    rt: &impl Abort,
    alloc: Global,
    bytes: &[u8],
    (place, byte): (usize, u8),
    (size, most): (u64, u64),
    taken: &[TakenRun],
) -> Result<Result<Segment, SegmentFault>, Fail> {
    let mut bytes = bytes.to_vec(alloc)?;
    if let Some(at) = bytes.get_mut(place) {
        *at = byte;
    }
    bytes.resize(SIZE as usize, 0)?;
    let mut disk = MemDisk::of(alloc, bytes);
    let len = disk.bytes().len();
    assert!(rt; len == 144);
    assert!(rt; size >= 10);
    assert!(rt; size <= 144);
    let front = read_front(alloc, &mut disk, &Region { at: 0, size })?.ok_or("the head is closed")?;
    Ok(segment_in(alloc, size, most, 2, taken, &LIVE, front))
}

#[test]
fn an_entry_has_these_bytes(rt: HostRuntime) -> Result<(), Fail> {
    let alloc = rt.alloc();
    let commit = commit(alloc)?;
    let charge = commit.writes.charge();
    assert!(rt; charge == 61);
    charge_is_length();
    let mut entry = Vec::new(alloc);
    put_entry(&mut entry, &commit)?;
    assert!(rt; PUT.get(18..47) == Some(entry.as_slice()));
    Ok(())
}

#[test]
fn a_batch_of_one_commit_has_these_bytes(rt: HostRuntime) -> Result<(), Fail> {
    let alloc = rt.alloc();
    let region = Region { at: 0, size: 128 };
    let mut disk = MemDisk::of(alloc, vec![in alloc; 0; 128]?);
    let len = disk.bytes().len();
    assert!(rt; len == 128);
    let mut tail = start(&mut disk, &region, 1)?;
    let batch = batch_of(&rt, alloc)?;
    let len = disk.bytes().len();
    assert!(rt; len == 128);
    assert!(rt; tail.place < 128);
    append(&mut disk, &region, &mut tail, &batch)?;
    assert!(rt; disk.bytes().get(0..48) == Some(PUT.as_slice()));
    Ok(())
}

#[test]
fn a_segment_gives_its_commits(rt: HostRuntime) -> Result<(), Fail> {
    let none: [TakenRun; 0] = [];
    let segment = segment(&rt, rt.alloc(), &PUT, (0, 0x4f), (128, 1), &none)??;
    assert_eq!(rt; segment.sequence, 1);
    assert_eq!(rt; segment.charges, 61);
    assert_eq!(rt; segment.tail.place, 47);
    assert_eq!(rt; segment.next, 3);
    assert_eq!(rt; segment.commits.len(), 1);
    let commit = &segment.commits[0];
    assert_eq!(rt; commit.number, 2);
    assert_eq!(rt; commit.writes.len(), 1);
    let (store, change) = commit.writes.at(0);
    assert_eq!(rt; store, StoreId(1));
    assert!(rt; matches!(change, ChangeRef::Put(b"k", b"v")));
    Ok(())
}

#[test]
fn taken_numbers_are_skipped(rt: HostRuntime) -> Result<(), Fail> {
    let five = TakenRun { first: 5, count: 1 };
    let taken = [TakenRun { first: 1, count: 3 }, five];
    let found = segment(&rt, rt.alloc(), &PUT, (25, 4), (128, 1), &taken)?;
    assert!(rt; found.is_ok());
    let taken = [TakenRun { first: 2, count: 1 }, five];
    let fault = segment(&rt, rt.alloc(), &PUT, (25, 4), (128, 1), &taken)?.err();
    assert_eq!(rt; fault, Some(SegmentFault::Damaged(18)));
    Ok(())
}

/// A byte that is changed, the region's size, the longest value, and the place that is refused.
static PUTS: [((usize, u8), (u64, u64), u64); 17] = [
    ((12, 1), (128, 1), 10), // the batch does not lie inside the region
    ((13, 34), (128, 1), 10), // a byte is left over behind the entries
    ((13, 32), (128, 1), 46), // the value is cut off
    ((17, 0), (128, 1), 14), // no entry
    ((17, 2), (128, 1), 47), // a second entry, whose number is cut off
    ((25, 3), (128, 1), 18), // not the next number
    ((29, 0), (128, 1), 26), // no change
    ((29, 2), (128, 1), 47), // a second change, whose kind is cut off
    ((30, 4), (128, 1), 30), // an unknown kind
    ((40, 0), (128, 1), 39), // an empty key
    ((39, 6), (128, 1), 39), // a key of 1,537 bytes
    ((40, 9), (128, 1), 41), // a key that is cut off
    ((45, 2), (128, 1), 42), // a value that is too long
    ((0, 0x4f), (128, 0), 42), // a value, where none may have a byte
    ((0, 0x4f), (124, 1), 18), // a charge of 61, and room for 60
    ((0, 0x4f), (124, 0), 18), // the same, which is the lower place
    ((0, 0x4f), (125, 0), 42), // room for 61
];

/// The same of the two prefix deletes.
static PREFIXES: [((usize, u8), (u64, u64), u64); 11] = [
    ((40, 1), (144, 1), 42), // one byte, which may be, and then an unknown kind
    ((40, 3), (144, 1), 39), // three bytes, where store 1 has two
    ((38, 2), (144, 1), 43), // two bytes, where store 2 has three, and then out of order
    ((40, 33), (144, 1), 39), // more than any prefix has
    ((0, 0x4f), (144, 1), 43), // out of order
    ((53, 0), (144, 1), 43), // no byte at all, and so out of order
    ((53, 3), (144, 1), 52), // too long, and cut off
    ((53, 33), (144, 1), 52), // more than any prefix has, and cut off
    ((53, 2), (144, 1), 54), // cut off, and its first byte breaks the order
    ((54, 0x63), (132, 1), 18), // a charge of 69, and room for 68
    ((0, 0x4f), (132, 1), 43), // out of order, so the charge is not known
];

#[test]
fn each_damaged_field_is_reported_by_its_place(rt: HostRuntime) -> Result<(), Fail> {
    let none: [TakenRun; 0] = [];
    for (change, limits, want) in PUTS {
        let fault = segment(&rt, rt.alloc(), &PUT, change, limits, &none)?.err();
        assert_eq!(rt; fault, Some(SegmentFault::Damaged(want)));
    }
    for (change, limits, want) in PREFIXES {
        let fault = segment(&rt, rt.alloc(), &DELETES, change, limits, &none)?.err();
        assert_eq!(rt; fault, Some(SegmentFault::Damaged(want)));
    }
    Ok(())
}
