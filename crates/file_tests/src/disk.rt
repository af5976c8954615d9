use real_files::FolderDisk;
use st_device::{Disk, Failed, write_durably};
use std::alloc::Global;
use std::test::Fail;
use std::{fs, str};

// Whether the file is there and reads these bytes, of which there are 7 at most.
fn reads_as<D: Disk>(disk: &mut D, file: u64, want: &[u8]) -> Result<bool, Failed> {
    if disk.length(file)?.is_none() {
        return Ok(false);
    }
    let mut bytes = [9u8; 8];
    let count = disk.read(file, 0, &mut bytes)?;
    Ok(&bytes[..count] == want)
}

// Makes file 4 of two bytes, reads it, and removes it again: whether it came and went.
fn come_and_go<D: Disk>(disk: &mut D) -> Result<bool, Failed> {
    if disk.length(4)?.is_some() {
        return Ok(false);
    }
    write_durably(disk, 4, b"pq")?;
    let came = reads_as(disk, 4, b"pq")?;
    if disk.length(4)?.is_some() {
        disk.remove(4)?;
    }
    Ok(came && disk.length(4)?.is_none())
}

// Makes file 2, which isn't there.
fn make<D: Disk>(disk: &mut D) -> Result<bool, Failed> {
    if disk.length(2)?.is_some() {
        return Ok(false);
    }
    disk.create(2)?;
    Ok(true)
}

// Whether each of the files 20 to 39 reads its own number, but 30 this byte.
fn read_each<D: Disk>(disk: &mut D, byte: u8) -> Result<bool, Failed> {
    let mut all = true;
    for file in 20..40u8 {
        let want = if file == 30 { byte } else { file };
        all = reads_as(disk, file as u64, &[want])? && all;
    }
    Ok(all)
}

// Removes file 30.
fn remove<D: Disk>(disk: &mut D) -> Result<(), Failed> {
    if disk.length(30)?.is_some() {
        disk.remove(30)?;
    }
    Ok(())
}

// Puts a file of one byte into the folder, past the disk. Its number is below 100.
fn put(rt: &HostRuntime, file: u8, byte: u8) -> Result<(), Fail> {
    let mut path = *b"db/f00000000000000000000";
    path[22] += file / 10 % 10;
    path[23] += file % 10;
    fs::write(rt, str::from_utf8(&path)?, &[byte])?;
    Ok(())
}

// Puts more files into the folder than stay open.
fn put_each(rt: &HostRuntime) -> Result<(), Fail> {
    for file in 20..40u8 {
        put(rt, file, file)?;
    }
    Ok(())
}

// Whether the names of the disk's files are these.
fn are_named<D: Disk>(alloc: Global, disk: &mut D, names: &[u64]) -> Result<bool, Fail> {
    Ok(disk.files(alloc)?.as_slice() == names)
}

// A file comes and goes, and another one is made beside a file that isn't the disk's.
fn few_files(rt: &HostRuntime, disk: &mut FolderDisk<HostRuntime>) -> Result<bool, Fail> {
    let none = are_named(rt.alloc(), disk, &[])?;
    let gone = come_and_go(disk)?;
    let made = make(disk)?;
    fs::write(rt, "db/f3", "no file of the disk")?;
    Ok(none && gone && made && are_named(rt.alloc(), disk, &[2])?)
}

// More files than stay open, each read twice; one is removed and made again.
fn many_files(rt: &HostRuntime, disk: &mut FolderDisk<HostRuntime>) -> Result<bool, Fail> {
    put_each(rt)?;
    let first = read_each(disk, 30)?;
    let again = read_each(disk, 30)?;
    remove(disk)?;
    put(rt, 30, 7)?;
    let changed = read_each(disk, 7)?;
    Ok(first && again && changed && disk.files(rt.alloc())?.len() == 21)
}

// One program has the folder at a time.
#[test]
fn a_folder_is_locked(rt: HostRuntime) -> Result<(), Fail> {
    let mut disk = FolderDisk::new(rt.clone()?);
    let mut other = FolderDisk::new(rt.clone()?);
    assert!(rt; are_named(rt.alloc(), &mut disk, &[])?);
    assert!(rt; other.length(2).is_err());
    assert!(rt; other.faults() == 1);
    Ok(())
}

#[test]
fn a_folder_keeps_files(rt: HostRuntime) -> Result<(), Fail> {
    let mut disk = FolderDisk::new(rt.clone()?);
    assert!(rt; few_files(&rt, &mut disk)?);
    assert!(rt; many_files(&rt, &mut disk)?);
    assert!(rt; disk.faults() == 0);
    Ok(())
}
