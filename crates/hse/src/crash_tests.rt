//! Runs whose device stops at each call, and what the next run finds there.
use crate::tests::{run, wrote};
use hse_io::Status;
use media_disk::{Fill, MemDisk};
use std::alloc::{AllocError, Global};
use std::process::Abort;
use std::test::Fail;

/// Two commits, made safe at once.
const SCRIPT: &[u8] = b"put @ s a 1\nput @ s b 2\nsync\n";

/// Reads both.
const GETS: &[u8] = b"get @ s a\nget @ s b\n";

const NONE: &[u8] = b"opened 1\nnone\nnone\nclosed 1\n";

const BOTH: &[u8] = b"opened 3\nvalue 1\nvalue 2\nclosed 3\n";

const FILLS: [Fill; 5] = [
    Fill::Old,
    Fill::New,
    Fill::Torn,
    Fill::Byte(0),
    Fill::Byte(0x4f),
];

/// Stops the device so, and tells whether the next run finds both pairs; else it finds none.
fn finds_both(
    rt: &impl Abort,
    alloc: Global,
    disk: MemDisk,
    fill: Fill,
) -> Result<bool, AllocError> {
    let Ok(mut disk) = disk.stopped(alloc, fill) else {
        return Err(AllocError);
    };
    let ran = run(alloc, GETS, Vec::new(alloc), Vec::new(alloc), &mut disk)?;
    let both = ran.sink.bytes() == BOTH;
    wrote(rt, &ran, Status::Done, if both { BOTH } else { NONE });
    Ok(both)
}

#[test]
fn a_stop_at_any_call_of_a_sync_leaves_both_commits_or_none(rt: HostRuntime) -> Result<(), Fail> {
    let alloc = rt.alloc();
    let mut found = [0u32; 2];
    // The opening takes eight calls, and the sync four.
    for call in 8..12 {
        for fill in FILLS {
            let mut disk = MemDisk::new(alloc);
            disk.fail_from(call);
            let ran = run(alloc, SCRIPT, Vec::new(alloc), Vec::new(alloc), &mut disk)?;
            let lines = b"opened 1\nok 2\nok 3\nfault device\n";
            wrote(&rt, &ran, Status::DeviceFault, lines.as_slice());
            assert_eq!(rt; ran.marks.len(), 1);
            let both = finds_both(&rt, alloc, disk, fill)?;
            found[both as usize] = found[both as usize].wrapping_add(1);
        }
    }
    // Both outcomes come up: the open gate is there where its pending byte is it, or was written and is new.
    assert_eq!(rt; found, [17, 3]);
    Ok(())
}

#[test]
fn a_stop_behind_the_reply_to_a_sync_leaves_both_commits(rt: HostRuntime) -> Result<(), Fail> {
    let alloc = rt.alloc();
    for fill in FILLS {
        let mut disk = MemDisk::new(alloc);
        // The script breaks off behind the sync.
        let reads = [4].as_slice().to_vec(alloc)?;
        let ran = run(alloc, SCRIPT, reads, Vec::new(alloc), &mut disk)?;
        let lines = b"opened 1\nok 2\nok 3\nok 3\nfault read\n";
        wrote(&rt, &ran, Status::ReadFault, lines.as_slice());
        assert!(rt; finds_both(&rt, alloc, disk, fill)?);
    }
    Ok(())
}

#[test]
fn a_stop_within_the_next_opening_loses_nothing(rt: HostRuntime) -> Result<(), Fail> {
    let alloc = rt.alloc();
    for fill in FILLS {
        for call in 0..3 {
            let mut disk = MemDisk::new(alloc);
            let ran = run(alloc, SCRIPT, Vec::new(alloc), Vec::new(alloc), &mut disk)?;
            assert!(rt; ran.status == Status::Done);
            let Ok(mut disk) = disk.stopped(alloc, fill) else {
                return Err(Fail::from("memory"));
            };
            disk.fail_from(call);
            let ran = run(alloc, GETS, Vec::new(alloc), Vec::new(alloc), &mut disk)?;
            wrote(&rt, &ran, Status::DeviceFault, b"fault device\n".as_slice());
            assert!(rt; finds_both(&rt, alloc, disk, fill)?);
        }
    }
    Ok(())
}
