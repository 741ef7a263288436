//! The calls of a disk, over those of the system.
ghost use Rattle.std.specs.Prelude.{◌≡◌, ◌+◌, ◌^◌, ◌≤◌, true, [], length, IfOk, OnOk, OnErr, IsErr};
ghost use Rattle.media_disk.specs.Calls.{Called};
ghost use Rattle.file_disk.specs.FileState.{KeepsFile};

use crate::FileDisk;
use media_disk::{Device, Disk, Failed};
use std::fs::File;
use std::io;
use std::os::unix::fs::FileExt;
use std::rt::Files;

// Gives an empty file a size. One that holds something stays as it is, and the call fails.
fn grow(file: &File, size: u64) -> io::Result<()>
    ensures { 2 ^ 63 ≤ size → IsErr result }
{
    if file.metadata()?.len() > 0 {
        return Err(io::ErrorKind::InvalidInput.into());
    }
    file.set_len(size)
}

impl<R: Files<File = File> + Drop> Device for FileDisk<R> {
    ghost tells = { ⊥ };

    ghost seen = { λ _. [] };

    ghost pending = { λ _. [] };

    ghost extent = { λ disk. disk.extent };

    ghost faults = { λ disk. disk.faults };

    ghost clock = { λ disk. disk.clock };

    ghost name = { λ _. 0 };

    ghost could = { λ _ _ _. ⊥ };
}

impl<R: Files<File = File> + Drop> Disk for FileDisk<R> {
    ghost as_long = { λ _ told. absurd told };

    ghost counts_now = { λ _ _ _ told _ _. absurd told };

    ghost only_now = { λ _ _ told _. absurd told };

    fn size(&mut self) -> Result<u64, Failed>
        ensures call { Called ⟦<FileDisk<R> as Device>⟧ self.old self.new result }
        ensures size { IfOk result (λ n. n ≡ self.new.extent) }
        ensures stays { 1 ≤ self.old.extent → self.new.extent ≡ self.old.extent }
        ensures extent { OnErr result (self.new.extent ≡ self.old.extent) }
        ensures file { KeepsFile self.old self.new result }
    {
        self.begin()?;
        let told = self.opened().metadata();
        let length = self.count_fault_of(told)?.len();
        // A file whose length another program changed is a device that failed.
        if self.extent != 0 && self.extent != length {
            return Err(self.count_fault());
        }
        self.extent = length;
        Ok(length)
    }

    fn set_size(&mut self, size: u64) -> Result<(), Failed>
        requires empty { self.old.extent ≡ 0 }
        requires some { 1 ≤ size }
        ensures call { Called ⟦<FileDisk<R> as Device>⟧ self.old self.new result }
        ensures extent { OnOk result (self.new.extent ≡ size) }
        ensures extent_err { OnErr result (self.new.extent ≡ self.old.extent) }
        ensures too_large { 2 ^ 63 ≤ size → IsErr result }
        ensures file { KeepsFile self.old self.new result }
    {
        self.begin()?;
        let done = grow(self.opened(), size);
        self.count_fault_of(done)?;
        self.extent = size;
        Ok(())
    }

    fn read(&mut self, at: u64, into: &mut [u8]) -> Result<(), Failed>
        requires { at + length into.old ≤ self.old.extent }
        ensures call { Called ⟦<FileDisk<R> as Device>⟧ self.old self.new result }
        ensures extent { self.new.extent ≡ self.old.extent }
        ensures file { KeepsFile self.old self.new result }
    {
        self.begin()?;
        let done = self.opened().read_exact_at(into, at);
        self.count_fault_of(done)
    }

    fn write(&mut self, at: u64, bytes: &[u8]) -> Result<(), Failed>
        requires { at + length bytes.now ≤ self.old.extent }
        ensures call { Called ⟦<FileDisk<R> as Device>⟧ self.old self.new result }
        ensures extent { self.new.extent ≡ self.old.extent }
        ensures file { KeepsFile self.old self.new result }
    {
        self.begin()?;
        let done = self.opened().write_all_at(bytes, at);
        self.count_fault_of(done)
    }

    // The data, the length with them, and at the first time the folder.
    fn sync(&mut self) -> Result<(), Failed>
        ensures call { Called ⟦<FileDisk<R> as Device>⟧ self.old self.new result }
        ensures extent { self.new.extent ≡ self.old.extent }
        ensures folder { OnOk result (self.new.is_folder_synced ≡ true) }
        ensures file { KeepsFile self.old self.new result }
    {
        self.begin()?;
        let done = self.sync_all();
        self.count_fault_of(done)
    }

    fn clock(&self) -> u64 {
        self.clock
    }
}
