//! Devices of random bytes, and random bytes behind right parts.
use crate::cuts::{Row, cut, garbage, noise, read_only, two_stores, wanted};
use crate::device::SIZE;
use crate::views::has;
use recovery::{OpenFault, Region};
use std::test::Fail;

/// Where half 1 of the manifest begins.
const HALF: usize = 69_632;

/// Where the log's segment 1 begins.
const SEGMENT: usize = 200_704;

/// The place of a superblock of random bytes that is refused: the size where they are too few, else the
/// gate, or the text behind an open one.
fn refused_place(bytes: &[u8]) -> u64 {
    if bytes.len() < 4_096 {
        return bytes.len() as u64;
    }
    match bytes.first() {
        Some(79) => 1,
        _ => 0,
    }
}

#[test]
fn devices_of_random_bytes_are_refused(rt: HostRuntime) -> Result<(), Fail> {
    let alloc = rt.alloc();
    for seed in 1..5u64 {
        for size in &[1, 9, 4_095, 4_096, 70_000, SIZE] {
            for opens in &[false, true] {
                let mut bytes = noise(alloc, seed, *size)?;
                if let Some(gate) = bytes.get_mut(0) {
                    if *opens {
                        *gate = 79;
                    }
                }
                let fault = read_only(&rt, alloc, &bytes)?.err();
                let want = OpenFault::NotFormed(Region::Super, refused_place(&bytes));
                assert_eq!(rt; (seed, size, fault), (seed, size, Some(want)));
            }
        }
    }
    Ok(())
}

/// Up to where a device is right, and what is recovered, or refused.
static BEHIND: [Row; 8] = [
    (36, 36, Err((Region::Super, 36))),
    (4_096, 4_096, Err((Region::Manifest(0), 0))), // both heads are closed
    (HALF + 10, HALF + 10, Err((Region::Manifest(1), 10))), // a batch that does not lie inside
    (HALF + 76, HALF + 76, Err((Region::Log(1), 0))), // the head of the segment is closed
    (SEGMENT + 1, SEGMENT + 1, Err((Region::Log(1), 0))), // another sequence
    (SEGMENT + 14, SEGMENT + 14, Err((Region::Log(1), 18))), // a commit of another number
    (SEGMENT + 65, SEGMENT + 65, Err((Region::Log(1), 65))), // a batch that does not lie inside
    (SEGMENT + 98, SEGMENT + 98, Ok(4)),
];

#[test]
fn random_bytes_behind_right_parts_are_refused(rt: HostRuntime) -> Result<(), Fail> {
    let alloc = rt.alloc();
    let bytes = two_stores(&rt, alloc)?;
    for seed in 6..9u64 {
        let garbage = garbage(alloc, seed, SIZE)?;
        for (place, _, _) in &BEHIND {
            let bytes = cut(alloc, &bytes, *place, SIZE, &garbage)?;
            let found = read_only(&rt, alloc, &bytes)?.map(|found| found.number);
            assert_eq!(rt; (place, Some(found)), (place, wanted(&BEHIND, *place)));
        }
    }
    Ok(())
}

/// What is not read: behind the closed head of half 0, behind the closed gate of half 1, with segment 0 of
/// the log, and behind the closed gate of segment 1, with the others and the slots.
static UNREAD: [(usize, usize); 3] = [(4_097, HALF), (HALF + 76, SEGMENT), (SEGMENT + 98, SIZE)];

#[test]
fn random_bytes_that_are_not_read_change_nothing(rt: HostRuntime) -> Result<(), Fail> {
    let alloc = rt.alloc();
    for seed in 10..14u64 {
        let mut bytes = two_stores(&rt, alloc)?;
        let noise = noise(alloc, seed, SIZE)?;
        for (place, end) in &UNREAD {
            bytes = cut(alloc, &bytes, *place, *end, &noise)?;
        }
        let found = read_only(&rt, alloc, &bytes)??;
        assert_eq!(rt; found.number, 4);
        assert_eq!(rt; found.base.stores.len(), 2);
        assert_eq!(rt; found.manifest.tail.place, 75);
        assert_eq!(rt; found.log.tail.place, 97);
        assert!(rt; has(alloc, &found, b"s", None)?);
        assert!(rt; has(alloc, &found, b"t", Some(b"w".as_slice()))?);
    }
    Ok(())
}
