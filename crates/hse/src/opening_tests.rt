//! Runs on devices that hold something: what an earlier run stored, or what is refused, and where.
use crate::tests::{padded, run, wrote};
use hse_io::Status;
use media_disk::{Fill, MemDisk, Work};
use std::alloc::{AllocError, Global};
use std::process::Abort;
use std::test::Fail;

/// How many bytes a device has.
const SIZE: usize = 4_194_304;

/// What a run of a put and a deletion leaves at the front of its device: one batch of two commits.
const FRONT: [u8; 72] = [
    0x4f, 0, 0, 0, 0, 0, 0, 0, 1, 0x4f, 0, 0, 0, 57, 0, 0, 0, 2, 0, 0, 0, 0, 0, 0, 0, 2, 0, 0, 0,
    1, 1, 0, 0, 0, 0, 0, 0, 0, 1, 0, 1, b'a', 0, 0, 0, 1, b'1', 0, 0, 0, 0, 0, 0, 0, 3, 0, 0, 0, 1,
    2, 0, 0, 0, 0, 0, 0, 0, 1, 0, 1, b'a', 0,
];

/// A device that begins with these bytes.
fn device(alloc: Global, front: &[u8]) -> Result<MemDisk, AllocError> {
    let mut bytes = front.to_vec(alloc)?;
    bytes.resize(SIZE, 0)?;
    Ok(MemDisk::of(alloc, bytes))
}

/// Runs a script on this device and compares what it wrote.
fn answers(
    rt: &impl Abort,
    alloc: Global,
    disk: &mut MemDisk,
    script: &[u8],
    status: Status,
    lines: &[u8],
) -> Result<(), AllocError> {
    let ran = run(alloc, script, Vec::new(alloc), Vec::new(alloc), disk)?;
    wrote(rt, &ran, status, lines);
    assert_eq!(rt; disk.refused(), 0);
    Ok(())
}

/// A run on this device is refused and leaves it as it was.
fn refused(
    rt: &impl Abort,
    alloc: Global,
    disk: &mut MemDisk,
    lines: &[u8],
) -> Result<(), AllocError> {
    let before = disk.bytes().to_vec(alloc)?;
    answers(rt, alloc, disk, b"get @ s a\n", Status::NotFormed, lines)?;
    assert_eq!(rt; disk.bytes(), before.as_slice());
    Ok(())
}

/// The front with another byte at this place.
fn with_byte(alloc: Global, at: usize, byte: u8) -> Result<Vec<u8>, AllocError> {
    let mut front = FRONT.to_vec(alloc)?;
    if let Some(place) = front.get_mut(at) {
        *place = byte;
    }
    Ok(front)
}

/// A run on the device whose front has another byte at this place is refused, and told so by this line.
fn damaged(
    rt: &impl Abort,
    alloc: Global,
    at: usize,
    byte: u8,
    lines: &[u8],
) -> Result<(), AllocError> {
    let mut disk = device(alloc, &with_byte(alloc, at, byte)?)?;
    refused(rt, alloc, &mut disk, lines)
}

#[test]
fn a_device_of_another_size_is_refused(rt: HostRuntime) -> Result<(), Fail> {
    let alloc = rt.alloc();
    let line = b"fault not-formed log-1 0\n";
    let mut disk = MemDisk::of(alloc, b"12345".as_slice().to_vec(alloc)?);
    refused(&rt, alloc, &mut disk, line.as_slice())?;
    let mut more = FRONT.to_vec(alloc)?;
    more.resize(SIZE + 1, 0)?;
    let mut disk = MemDisk::of(alloc, more);
    refused(&rt, alloc, &mut disk, line.as_slice())?;
    Ok(())
}

/// Damaged fields: of the region, of a batch and of a change.
static DAMAGED: [(usize, u8, &[u8]); 20] = [
    // A closed head.
    (0, 0, b"fault not-formed log-1 0\n"),
    // A sequence that is none of the region's, and one above the greatest.
    (8, 2, b"fault not-formed log-1 1\n"),
    (1, 0x40, b"fault not-formed log-1 1\n"),
    // A length that passes the region's end, and one that leaves a byte over.
    (10, 0xff, b"fault not-formed log-1 10\n"),
    (13, 58, b"fault not-formed log-1 10\n"),
    // A gate that opens a batch without a count.
    (71, 0x4f, b"fault not-formed log-1 76\n"),
    // A payload that ends before its last key.
    (13, 56, b"fault not-formed log-1 70\n"),
    // No entry; one entry, which leaves the other over; three, of which the last is cut off.
    (17, 0, b"fault not-formed log-1 14\n"),
    (17, 1, b"fault not-formed log-1 10\n"),
    (17, 3, b"fault not-formed log-1 71\n"),
    // A number that is not the next one, first or later.
    (25, 3, b"fault not-formed log-1 18\n"),
    (54, 4, b"fault not-formed log-1 47\n"),
    // No change; and one more than there is, which begins with the next number.
    (29, 0, b"fault not-formed log-1 26\n"),
    (29, 2, b"fault not-formed log-1 47\n"),
    // An unknown kind, and a prefix delete, of which the store allows no length.
    (30, 9, b"fault not-formed log-1 30\n"),
    (30, 3, b"fault not-formed log-1 39\n"),
    // A key that is empty, and one that is too long.
    (40, 0, b"fault not-formed log-1 39\n"),
    (39, 0x7f, b"fault not-formed log-1 39\n"),
    // A value longer than a line, and one that is cut off.
    (42, 0xff, b"fault not-formed log-1 42\n"),
    (45, 200, b"fault not-formed log-1 46\n"),
];

#[test]
fn each_damaged_field_gives_its_place(rt: HostRuntime) -> Result<(), Fail> {
    for (at, byte, lines) in DAMAGED {
        damaged(&rt, rt.alloc(), at, byte, lines)?;
    }
    Ok(())
}

#[test]
fn what_the_format_allows_is_opened(rt: HostRuntime) -> Result<(), Fail> {
    let alloc = rt.alloc();
    let rows: [(usize, u8, &[u8]); 5] = [
        (71, 0, b"opened 3\nnone\nclosed 3\n"),
        // Another sequence of the region, and a first gate that is closed.
        (8, 5, b"opened 3\nnone\nclosed 3\n"),
        (9, 0, b"opened 1\nnone\nclosed 1\n"),
        // A put of a store that is not there, and a deletion of one.
        (38, 2, b"opened 3\nnone\nclosed 3\n"),
        (67, 2, b"opened 3\nvalue 1\nclosed 3\n"),
    ];
    for (at, byte, lines) in rows {
        let mut disk = device(alloc, &with_byte(alloc, at, byte)?)?;
        answers(&rt, alloc, &mut disk, b"get @ s a\n", Status::Done, lines)?;
    }
    Ok(())
}

/// A region whose one batch is one entry: a put of `b` and then this change of 17 bytes.
fn two_changes(alloc: Global, change: &[u8]) -> Result<Vec<u8>, AllocError> {
    let mut front = FRONT.split_at(30).0.to_vec(alloc)?;
    front[17] = 1;
    front[29] = 2;
    front.extend_from_slice(&[1, 0, 0, 0, 0, 0, 0, 0, 1, 0, 1, b'b', 0, 0, 0, 1, b'2'])?;
    front.extend_from_slice(change)?;
    // Count, number and count of changes have 16 bytes.
    front[13] = 50;
    front.push(0)?;
    Ok(front)
}

#[test]
fn a_commit_of_several_changes_is_replayed_whole(rt: HostRuntime) -> Result<(), Fail> {
    let alloc = rt.alloc();
    let put_c = [1, 0, 0, 0, 0, 0, 0, 0, 1, 0, 1, b'c', 0, 0, 0, 1, b'3'];
    let mut disk = device(alloc, &two_changes(alloc, &put_c)?)?;
    let lines = b"opened 2\nvalue 2\nvalue 3\nok 3\nclosed 3\n";
    let script = b"get @ s b\nget @ s c\ndel @ s b\n";
    answers(&rt, alloc, &mut disk, script, Status::Done, lines)?;
    // The changes of a commit stand in the order of their keys.
    let put_a = [1, 0, 0, 0, 0, 0, 0, 0, 1, 0, 1, b'a', 0, 0, 0, 1, b'3'];
    let mut disk = device(alloc, &two_changes(alloc, &put_a)?)?;
    let line = b"fault not-formed log-1 47\n";
    refused(&rt, alloc, &mut disk, line.as_slice())?;
    Ok(())
}

#[test]
fn a_commit_for_which_the_log_has_no_room_is_refused_at_its_number(
    rt: HostRuntime,
) -> Result<(), Fail> {
    let alloc = rt.alloc();
    // One put whose value has a byte more than the room allows, and then one that fits.
    for (length, lines, status) in [
        (
            4_194_181u32,
            b"fault not-formed log-1 18\n".as_slice(),
            Status::NotFormed,
        ),
        (
            4_194_180,
            b"opened 2\nerr log-full 61 0\nclosed 2\n",
            Status::Done,
        ),
    ] {
        let mut front = FRONT.split_at(46).0.to_vec(alloc)?;
        front[17] = 1;
        let Some(size) = length.checked_add(32) else {
            return Err(Fail::from("a length"));
        };
        let sized = size.to_be_bytes();
        let valued = length.to_be_bytes();
        for place in 0..4 {
            front[10 + place] = sized[place];
            front[42 + place] = valued[place];
        }
        let mut disk = device(alloc, &front)?;
        answers(&rt, alloc, &mut disk, b"put @ s b 1\n", status, lines)?;
    }
    Ok(())
}

#[test]
fn a_run_goes_on_from_what_the_last_one_stored(rt: HostRuntime) -> Result<(), Fail> {
    let alloc = rt.alloc();
    let mut disk = MemDisk::new(alloc);
    let first = b"put @ s a 1\nput @ s b 2\nsync\ndel @ s a\n";
    let lines = b"opened 1\nok 2\nok 3\nok 3\nok 4\nclosed 4\n";
    answers(&rt, alloc, &mut disk, first, Status::Done, lines)?;
    let second = b"get @ s a\nget @ s b\nput @ s a 3\n";
    let lines = b"opened 4\nnone\nvalue 2\nok 5\nclosed 5\n";
    answers(&rt, alloc, &mut disk, second, Status::Done, lines)?;
    // The commits that are there take of the room: 61, 61, 56 and 61 bytes.
    let script = padded(alloc, b"get @ s a\nput @ s c ", 4_193_942)?;
    let lines = b"opened 5\nvalue 3\nerr log-full 4194002 4194001\nclosed 5\n";
    answers(&rt, alloc, &mut disk, &script, Status::Done, lines)?;
    Ok(())
}

#[test]
fn each_device_call_of_an_opening_that_fails_ends_the_run(rt: HostRuntime) -> Result<(), Fail> {
    let alloc = rt.alloc();
    // The opening of a log asks for the size, syncs and reads.
    for call in 0..3 {
        let mut disk = device(alloc, &FRONT)?;
        disk.fail_at([call].as_slice().to_vec(alloc)?);
        let ran = run(alloc, b"", Vec::new(alloc), Vec::new(alloc), &mut disk)?;
        wrote(&rt, &ran, Status::DeviceFault, b"fault device\n".as_slice());
        assert!(rt; ran.marks.is_empty());
        assert_eq!(rt; disk.calls().len() as u64, call.wrapping_add(1));
        assert!(rt; disk.bytes().starts_with(FRONT.as_slice()));
    }
    Ok(())
}

/// Whether the call before this clock is a sync that succeeded.
fn is_synced(disk: &MemDisk, clock: u64) -> bool {
    disk.calls().iter().any(|call| {
        call.clock.wrapping_add(1) == clock && !call.failed && matches!(call.work, Work::Sync)
    })
}

#[test]
fn each_mark_has_the_clock_of_the_sync_before_it(rt: HostRuntime) -> Result<(), Fail> {
    let alloc = rt.alloc();
    let mut disk = MemDisk::new(alloc);
    let script = b"put @ s a 1\nsync\nsync\nput @ s b 2\n";
    let ran = run(
        alloc,
        script.as_slice(),
        Vec::new(alloc),
        Vec::new(alloc),
        &mut disk,
    )?;
    let lines = b"opened 1\nok 2\nok 2\nok 2\nok 3\nclosed 3\n";
    wrote(&rt, &ran, Status::Done, lines.as_slice());
    // The opening takes eight calls, a batch four, and a sync of nothing none.
    let wanted = [(1, 8), (2, 12), (2, 12), (3, 16)];
    assert_eq!(rt; ran.marks.len(), wanted.len());
    for (mark, (number, moment)) in ran.marks.iter().zip(wanted) {
        assert_eq!(rt; mark.life, 0);
        assert_eq!(rt; mark.number, number);
        assert_eq!(rt; mark.moment, moment);
        assert!(rt; is_synced(&disk, moment));
    }
    // An opening is marked at the clock behind its barrier, the second call; the reading is the third.
    let mut disk = disk.stopped(alloc, Fill::Old)?;
    let ran = run(alloc, b"", Vec::new(alloc), Vec::new(alloc), &mut disk)?;
    wrote(&rt, &ran, Status::Done, b"opened 3\nclosed 3\n".as_slice());
    for (mark, moment) in ran.marks.iter().zip([2, 3]) {
        assert_eq!(rt; mark.number, 3);
        assert_eq!(rt; mark.moment, moment);
    }
    assert_eq!(rt; ran.marks.len(), 2);
    Ok(())
}
