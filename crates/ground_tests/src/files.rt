//! `FileDisk` over real files: made, read again, locked, cut by another hand, and not to be had.
ghost use Rattle.std.specs.Prelude.{◌≡◌};

use file_disk::FileDisk;
use media_disk::Disk;
use std::process::Abort;
use std::test::Fail;
use std::{env, fs, process};

/// A new folder for one test, in the system's folder for such files.
fn folder(rt: &HostRuntime, test: &str) -> Result<String, Fail> {
    let alloc = rt.alloc();
    let room = env::temp_dir(rt)?;
    let id = process::id(rt.process());
    let folder = format!(in alloc; "{}/ground_tests_{test}_{id}", room.as_str())?;
    let _ = fs::remove_dir_all(rt, folder.as_str());
    fs::create_dir(rt, folder.as_str())?;
    Ok(folder)
}

/// A new file of eight bytes in a folder of its own: the folder and the file.
fn file_of_eight(rt: &HostRuntime, test: &str) -> Result<(String, String), Fail> {
    let folder = folder(rt, test)?;
    let path = format!(in rt.alloc(); "{folder}/device")?;
    fs::write(rt, path.as_str(), b"abcdefgh".as_slice())?;
    Ok((folder, path))
}

fn has_size<D: Disk>(rt: &impl Abort, disk: &mut D, want: u64)
    ensures { D.extent disk.new ≡ want }
{
    match disk.size() {
        Ok(size) => assert!(rt; size == want),
        Err(_) => panic!(rt; "no size"),
    }
}

/// Compares all that a device of eight bytes reads.
fn holds<D: Disk>(rt: &impl Abort, disk: &mut D, want: [u8; 8])
    ensures { D.extent disk.new ≡ 8 }
{
    has_size(rt, disk, 8);
    let mut bytes = [0u8; 8];
    assert!(rt; disk.read(0, &mut bytes).is_ok());
    assert_eq!(rt; bytes, want);
}

#[test]
fn a_file_is_made_at_the_first_call_and_kept_when_it_is_opened_again(
    rt: HostRuntime,
) -> Result<(), Fail> {
    let alloc = rt.alloc();
    let folder = folder(&rt, "made")?;
    let path = format!(in alloc; "{folder}/device")?;
    let mut disk = FileDisk::at(&rt, alloc, path.as_str())?;
    assert!(rt; !fs::exists(&rt, path.as_str())?);
    has_size(&rt, &mut disk, 0);
    assert!(rt; fs::exists(&rt, path.as_str())?);
    assert!(rt; disk.set_size(8).is_ok());
    holds(&rt, &mut disk, [0; 8]);
    assert!(rt; disk.write(2, b"abc").is_ok());
    assert!(rt; disk.write(4, b"xyz").is_ok());
    assert!(rt; disk.sync().is_ok());
    holds(&rt, &mut disk, *b"\0\0abxyz\0");
    assert_eq!(rt; disk.clock(), 9);
    assert_eq!(rt;
        fs::read(&rt, path.as_str())?.as_slice(),
        b"\0\0abxyz\0".as_slice()
    );
    drop(disk);
    let mut second = FileDisk::at(&rt, alloc, path.as_str())?;
    holds(&rt, &mut second, *b"\0\0abxyz\0");
    assert_eq!(rt; second.clock(), 2);
    fs::remove_dir_all(&rt, folder.as_str())?;
    Ok(())
}

#[test]
fn a_file_that_another_disk_has_open_is_refused_and_left_alone(
    rt: HostRuntime,
) -> Result<(), Fail> {
    let alloc = rt.alloc();
    let (folder, path) = file_of_eight(&rt, "locked")?;
    let mut disk = FileDisk::at(&rt, alloc, path.as_str())?;
    holds(&rt, &mut disk, *b"abcdefgh");
    let mut second = FileDisk::at(&rt, alloc, path.as_str())?;
    assert!(rt; second.size().is_err());
    assert!(rt; second.set_size(4).is_err());
    assert!(rt; second.sync().is_err());
    assert_eq!(rt; second.clock(), 3);
    holds(&rt, &mut disk, *b"abcdefgh");
    // Once the first disk is gone, the file is the second one's.
    drop(disk);
    holds(&rt, &mut second, *b"abcdefgh");
    fs::remove_dir_all(&rt, folder.as_str())?;
    Ok(())
}

#[test]
fn a_read_past_the_end_of_a_cut_file_is_a_fault(rt: HostRuntime) -> Result<(), Fail> {
    let alloc = rt.alloc();
    let (folder, path) = file_of_eight(&rt, "cut")?;
    let mut disk = FileDisk::at(&rt, alloc, path.as_str())?;
    holds(&rt, &mut disk, *b"abcdefgh");
    // Another hand takes the second half away; the disk's size is the one that was told.
    fs::write(&rt, path.as_str(), b"1234".as_slice())?;
    let mut bytes = [0u8; 4];
    assert!(rt; disk.read(2, &mut bytes).is_err());
    assert!(rt; disk.read(4, &mut bytes).is_err());
    assert!(rt; disk.read(0, &mut bytes).is_ok());
    assert_eq!(rt; bytes, *b"1234");
    assert_eq!(rt; disk.clock(), 5);
    fs::remove_dir_all(&rt, folder.as_str())?;
    Ok(())
}

#[test]
fn a_file_that_holds_something_is_given_no_size(rt: HostRuntime) -> Result<(), Fail> {
    let alloc = rt.alloc();
    let (folder, path) = file_of_eight(&rt, "held")?;
    // Its size was not asked for, so that the disk takes it for empty.
    let mut disk = FileDisk::at(&rt, alloc, path.as_str())?;
    assert!(rt; disk.set_size(4).is_err());
    holds(&rt, &mut disk, *b"abcdefgh");
    assert_eq!(rt; disk.clock(), 3);
    fs::remove_dir_all(&rt, folder.as_str())?;
    Ok(())
}

#[test]
fn each_call_in_a_folder_that_is_not_there_is_a_fault(rt: HostRuntime) -> Result<(), Fail> {
    let alloc = rt.alloc();
    let folder = folder(&rt, "missing")?;
    let inner = format!(in alloc; "{folder}/inner")?;
    let path = format!(in alloc; "{inner}/device")?;
    let mut disk = FileDisk::at(&rt, alloc, path.as_str())?;
    assert!(rt; disk.size().is_err());
    assert!(rt; disk.set_size(8).is_err());
    let mut none = [0u8; 0];
    assert!(rt; disk.read(0, &mut none).is_err());
    assert!(rt; disk.write(0, b"").is_err());
    assert!(rt; disk.sync().is_err());
    // Once the folder is there, so is the file.
    fs::create_dir(&rt, inner.as_str())?;
    has_size(&rt, &mut disk, 0);
    assert_eq!(rt; disk.clock(), 6);
    assert!(rt; fs::exists(&rt, path.as_str())?);
    fs::remove_dir_all(&rt, folder.as_str())?;
    Ok(())
}
