//! Runs scripts and compares their replies with those that stand beside them. The words are the names of files; a
//! file begins with a line `device` and the device's parameters, and then has lines of a script, each behind `> `,
//! with the lines of its reply below it.
#![tactic(auto)]

mod case;
mod script;

use case::{Report, run_case};
use hse_io::NoMemory;
use std::alloc::Global;
use std::process::ExitCode;
use std::rt::{Env, Files};
use std::{env, fs, io};

/// Whether all replies of a file were as they stand there. What was not is printed.
fn runs_well<R>(rt: &R, name: &str) -> io::Result<bool>
where
    R: Files + AllocGlobal + Print,
{
    let bytes = fs::read(rt, name)?;
    match run_case(rt.alloc(), &bytes) {
        Ok(Report::Same(lines)) => {
            println!(rt; "{name}: {lines} lines")?;
            Ok(true)
        }
        Ok(Report::Other(line)) => {
            println!(rt; "{name}: another reply to line {line}")?;
            Ok(false)
        }
        Ok(Report::NoDevice) => {
            println!(rt; "{name}: no device")?;
            Ok(false)
        }
        Err(NoMemory) => {
            println!(rt; "{name}: out of memory")?;
            Ok(false)
        }
    }
}

/// Runs each file that the words name.
fn run_all<R>(rt: &R) -> io::Result<bool>
where
    R: Env + Files + AllocGlobal + Print,
{
    let mut all_well = true;
    for name in env::args(rt)?.skip(1) {
        if !runs_well(rt, name.as_str())? {
            all_well = false;
        }
    }
    Ok(all_well)
}

fn main(rt: HostRuntime) -> ExitCode {
    match run_all(&rt) {
        Ok(true) => ExitCode::from(0),
        _ => ExitCode::from(1),
    }
}
