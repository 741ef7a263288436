//! How the file is opened, and its folder synced.
ghost use Rattle.std.specs.Prelude.{◌≡◌, true, pos, ◌<ℤ◌, IfOk};
ghost use Rattle.std.specs.Fd.{file_raw_fd};
ghost use Rattle.std.specs.Fs.{new_options, with_create, with_read, with_write};
ghost use Rattle.std.specs.Path.{path_bytes};
ghost use Rattle.file_disk.specs.Folder.{folder_of};

use std::fs::{File, OpenOptions};
use std::io;
use std::os::fd::AsRawFd;
use std::path::Path;
use std::rt::Files;

// To read and to write, made where there is none, and not cut where there is one.
fn kept() -> OpenOptions
    ensures { result ≡ with_create (with_write (with_read new_options true) true) true }
{
    let mut options = OpenOptions::new();
    options.read(true).write(true).create(true);
    options
}

// The same open file by a descriptor above those of the standard streams. Where one of them is closed, the system
// gives its number to the next file that is opened, and what is meant for the stream would go there.
fn above_streams(file: File) -> io::Result<File>
    ensures { IfOk result (λ opened. pos 2 <ℤ file_raw_fd opened) }
{
    if file.as_raw_fd() > 2 {
        return Ok(file);
    }
    let raised = file.try_clone()?;
    if raised.as_raw_fd() > 2 {
        return Ok(raised);
    }
    Err(io::ErrorKind::Other.into())
}

/// Opens the file of this path, makes it where there is none, and locks it. Fails where another opening of the file
/// holds the lock, and leaves the file as it is.
pub(crate) fn open_locked<R: Files<File = File>>(rt: &R, path: &str) -> io::Result<File>
    ensures { IfOk result (λ opened. pos 2 <ℤ file_raw_fd opened) }
{
    let file = above_streams(kept().open(rt, path)?)?;
    file.try_lock()?;
    Ok(file)
}

// The folder in which the file of this path stands.
fn folder_of(path: &str) -> Path<'_>
    ensures { path_bytes result ≡ folder_of path.now }
{
    match Path::new(path).parent() {
        Some(folder) if !folder.as_str().is_empty() => folder,
        _ => Path::new("."),
    }
}

/// Makes safe which files stand in the folder of the file of this path.
pub(crate) fn sync_folder<R: Files<File = File>>(rt: &R, path: &str) -> io::Result<()> {
    File::open(rt, folder_of(path))?.sync_all()
}
