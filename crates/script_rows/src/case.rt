//! One file: a device, and the lines of a script with their replies.

use crate::script::{Device, device_of};
use hse_io::NoMemory;
use snap_machine::Machine;
use std::alloc::Global;

/// What a run of a file shows.
pub(crate) enum Report {
    /// All replies are as they stand there, to so many lines.
    Same(u64),
    /// The reply to this line of the script, counted from 1, is another.
    Other(u64),
    /// The first line names no device.
    NoDevice,
}

/// The lines of a text.
fn lines_of(alloc: Global, text: &[u8]) -> Result<Vec<&[u8]>, NoMemory> {
    let mut lines = Vec::new(alloc);
    for line in text.split(|byte| *byte == b'\n') {
        lines.push(line)?;
    }
    Ok(lines)
}

/// Runs the script of a file on the snapshot machine.
pub(crate) fn run_case(alloc: Global, text: &[u8]) -> Result<Report, NoMemory> {
    let lines = lines_of(alloc, text)?;
    let [first, rest @ ..] = lines.as_slice() else {
        return Ok(Report::NoDevice);
    };
    let Some(device) = device_of(first) else {
        return Ok(Report::NoDevice);
    };
    run_lines(alloc, machine_on(alloc, &device)?, rest)
}

fn machine_on(alloc: Global, device: &Device) -> Result<Machine, NoMemory> {
    let machine = Machine::new(
        alloc,
        device.power,
        device.slots,
        device.half,
        device.segment,
    )?;
    Ok(machine.with_stores(device.stores))
}

/// Runs the lines, and compares what each writes with the lines below it.
fn run_lines(alloc: Global, machine: Machine, lines: &[&[u8]]) -> Result<Report, NoMemory> {
    let mut machine = machine;
    let mut wanted = Vec::new(alloc);
    let mut got = Vec::new(alloc);
    let mut count: u64 = 0;
    for line in lines {
        match line.strip_prefix(b"> ".as_slice()) {
            Some(asked) => {
                if got.as_slice() != wanted.as_slice() {
                    return Ok(Report::Other(count));
                }
                count = count.saturating_add(1);
                got = machine.step(asked)?;
                wanted.clear();
            }
            None if line.is_empty() => {}
            None => {
                wanted.extend_from_slice(line)?;
                wanted.push(b'\n')?;
            }
        }
    }
    if got.as_slice() != wanted.as_slice() {
        return Ok(Report::Other(count));
    }
    Ok(Report::Same(count))
}
