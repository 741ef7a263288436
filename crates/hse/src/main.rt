//! `hse run PATH`: a store on a file, asked by a script on standard input that is answered on standard output.
#![tactic(auto)]

#[cfg(test)]
mod crash_tests;
#[cfg(test)]
mod opening_tests;
#[cfg(test)]
mod tests;
mod top;

ghost use Rattle.std.specs.Prelude.{◌≡◌, map, string_bytes, IfOk};
ghost use Rattle.hse.specs.Words.{AsksRun};

use file_disk::FileDisk;
use hse_io::{NoMemory, Status, StdSink, StdSource};
use hse_shell::tell;
use std::alloc::Global;
use std::fs::File;
use std::process::ExitCode;
use std::rt::{Env, Files};
use std::{env, io};
use top::{device_path, top};

/// Runs the program over the real world. An `Err` is memory that was refused before anything was done.
fn run<R>(rt: &R, words: &[String]) -> Result<Status, NoMemory>
where
    R: Files<File = File> + AllocGlobal + Print + Input + Clone,
    // Other words than the program's are a faulty command line, and only they.
    ensures usage { IfOk result (λ status. (AsksRun (map string_bytes words.now) → ⊥) → status ≡ Status.Usage) }
    ensures usage_only { IfOk result (λ status. status ≡ Status.Usage → AsksRun (map string_bytes words.now) → ⊥) }
{
    let alloc = rt.alloc();
    let mut source = StdSource::new(alloc, rt.reader())?;
    let mut sink = StdSink::new(io::writer(rt));
    let mut disk = FileDisk::at(rt, alloc, device_path(words))?;
    let outcome = top(alloc, words, &mut source, &mut sink, &mut disk);
    Ok(outcome.status)
}

/// The program's words. Words that are not text are none of the program's, so there are none.
fn words_of<R: Env + AllocGlobal>(rt: &R) -> Result<Vec<String>, NoMemory> {
    match env::args(rt) {
        Ok(words) => Ok(words.collect(rt.alloc())?),
        Err(error) if error.kind() == io::ErrorKind::OutOfMemory => Err(NoMemory),
        Err(_) => Ok(Vec::new(rt.alloc())),
    }
}

fn main(rt: HostRuntime) -> ExitCode {
    let ended = match words_of(&rt) {
        Ok(words) => run(&rt, &words),
        Err(NoMemory) => Err(NoMemory),
    };
    let status = match ended {
        Ok(status) => status,
        Err(NoMemory) => {
            tell(&mut StdSink::new(io::writer(&rt)), Status::NoMemory);
            Status::NoMemory
        }
    };
    ExitCode::from(status as u8)
}
