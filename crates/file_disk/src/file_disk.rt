//! The file, its opening and its counts.
ghost use Rattle.std.specs.Prelude.{◌≡◌};

use crate::opening::{open_locked, sync_folder};
use hse_io::NoMemory;
use media_disk::{Device, Failed};
use std::alloc::Global;
use std::fs::File;
use std::io;
use std::marker::Model;
use std::rt::Files;

/// A file that is opened at its first call, and made where there is none. What it holds is kept. While it is open it
/// is locked: where another disk, of this or another process, has the file open, the first call fails.
#[derive(Drop)]
pub struct FileDisk<R: Files<File = File>> {
    rt: R,
    path: String,
    file: Option<File>,
    is_folder_synced: bool,
    pub(crate) extent: u64,
    pub(crate) faults: u64,
    pub(crate) clock: u64,
}

impl<R: Files<File = File>> Model for FileDisk<R> {
    ghost use Rattle.std.specs.Prelude.{option_map, string_bytes, IfSome, pos, ◌<ℤ◌};
    ghost use Rattle.std.specs.Fd.{file_raw_fd};
    ghost use Rattle.file_disk.specs.FileState.{FileState};

    ghost Value = { FileState };

    ghost view = { λ s. record {
      path = string_bytes s.path;
      descriptor = option_map file_raw_fd s.file;
      is_folder_synced = s.is_folder_synced;
      extent = s.extent;
      faults = s.faults;
      clock = s.clock;
    } };

    ghost invariant = { λ s. IfSome (option_map file_raw_fd s.file) (λ descriptor. pos 2 <ℤ descriptor) };
}

impl<R: Files<File = File> + Drop> FileDisk<R> {
    ghost use Rattle.std.specs.Prelude.{◌-◌, ◌^◌, ◌≤◌, true, Some, Ok, IfOk, IsOk, IsErr, IsSome, OnOk, OnErr, MatchResult};
    ghost use Rattle.std.specs.Fd.{file_raw_fd};
    ghost use Rattle.hse_io.specs.Faults.{HasCause, next_count};
    ghost use Rattle.media_disk.specs.Calls.{Called};
    ghost use Rattle.file_disk.specs.FileState.{IsOpen, KeepsFile, faults_after, untouched};

    /// The file of this path, which is not touched yet.
    pub fn at(rt: R, alloc: Global, path: &str) -> Result<FileDisk<R>, NoMemory>
        ensures { IfOk result (λ disk. disk ≡ untouched path.now) }
    {
        Ok(FileDisk {
            rt,
            path: String::from_str(alloc, path)?,
            file: None,
            is_folder_synced: false,
            extent: 0,
            faults: 0,
            clock: 0,
        })
    }

    // Opens the file where that was not done yet.
    fn open(&mut self) -> io::Result<()>
        ensures opened { OnOk result (IsOpen self.new.descriptor) }
        ensures stays { IsSome self.old.descriptor → IsOk result }
        ensures same { IsSome self.old.descriptor → self.new ≡ self.old }
        ensures failed { OnErr result (self.new ≡ self.old) }
        ensures others { self.new ≡ record self.old { descriptor = self.new.descriptor } }
    {
        if self.file.is_none() {
            self.file = Some(open_locked(&self.rt, self.path.as_str())?);
        }
        Ok(())
    }

    /// The file, which is open.
    pub(crate) fn opened(&self) -> &File
        requires { IsSome self.now.descriptor }
        ensures { self.now.descriptor ≡ Some (file_raw_fd result.now) }
    {
        match &self.file {
            Some(file) => file,
            None => unreachable!(),
        }
    }

    /// Makes the data and the length safe, and at the first time also that the file stands in its folder.
    pub(crate) fn sync_all(&mut self) -> io::Result<()>
        requires { IsSome self.old.descriptor }
        ensures synced { OnOk result (self.new ≡ record self.old { is_folder_synced = true }) }
        ensures failed { OnErr result (self.new ≡ self.old) }
    {
        self.opened().sync_all()?;
        if !self.is_folder_synced {
            sync_folder(&self.rt, self.path.as_str())?;
            self.is_folder_synced = true;
        }
        Ok(())
    }

    /// Counts a fault.
    pub(crate) fn count_fault(&mut self) -> Failed
        ensures state { self.new ≡ record self.old { faults = next_count self.old.faults } }
        ensures later { self.old.faults ≤ self.new.faults }
    {
        self.faults = self.faults.saturating_add(1);
        Failed
    }

    /// Passes on what the system answered, and counts a fault.
    pub(crate) fn count_fault_of<T: Drop>(&mut self, outcome: io::Result<T>) -> Result<T, Failed>
        ensures passed { MatchResult outcome (λ given. result ≡ Ok given) (λ error. IsErr result) }
        ensures state { self.new ≡ record self.old { faults = faults_after self.old.faults outcome } }
        ensures cause { HasCause self.old.faults self.new.faults result }
    {
        match outcome {
            Ok(given) => Ok(given),
            Err(_) => Err(self.count_fault()),
        }
    }

    /// Counts a call, and opens the file where that was not done yet. At the clock's last value the call fails, and
    /// opens nothing.
    pub(crate) fn begin(&mut self) -> Result<(), Failed>
        ensures extent { self.new.extent ≡ self.old.extent }
        ensures folder { self.new.is_folder_synced ≡ self.old.is_folder_synced }
        ensures call { Called ⟦<FileDisk<R> as Device>⟧ self.old self.new result }
        ensures file { KeepsFile self.old self.new result }
    {
        if self.clock == u64::MAX {
            return Err(self.count_fault());
        }
        self.clock += 1;
        let opened = self.open();
        self.count_fault_of(opened)
    }
}
