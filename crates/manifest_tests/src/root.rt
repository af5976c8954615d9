use crate::disks::{reads_as, write_file};
use st_device::UnrecordedDisk;
use st_gate::ReplayFault;
use st_manifest::{RootRecord, root_append, root_make, root_replay};
use std::alloc::Global;
use std::test::Fail;

// A root with one record, which names manifest 2 without the flag: gates at 8 and 30.
const ONE_ROOT: [u8; 31] = *b"STROOT01\x01\x0d\0\0\0\xe0G\x18a\x01\0\0\0\x02\0\0\0\0\0\0\0\0\0";

// The manifest and the flag of a root's one record, and the root's bytes.
const ROOTS: [(u64, bool, &[u8]); 2] = [
    (2, false, &ONE_ROOT),
    (
        9,
        true,
        b"STROOT01\x01\x0d\0\0\0]:\xaf2\x01\0\0\0\x09\0\0\0\0\0\0\0\x01\0",
    ),
];

#[test]
fn a_new_root_has_its_bytes(rt: HostRuntime) -> Result<(), Fail> {
    let mut disk = UnrecordedDisk::new(rt.alloc());
    root_make(&mut disk)?;
    assert!(rt; reads_as(&mut disk, 0, b"STROOT01\0")?);
    Ok(())
}

// Makes a root with one record.
fn write_root(disk: &mut UnrecordedDisk, manifest: u64, behind: bool) -> Result<(), Fail> {
    let mut root = root_make(disk)?;
    if manifest < 1000 {
        root_append(&mut root, disk, manifest, behind)?;
    }
    Ok(())
}

#[test]
fn a_root_record_has_its_bytes(rt: HostRuntime) -> Result<(), Fail> {
    for &(manifest, behind, bytes) in &ROOTS {
        let mut disk = UnrecordedDisk::new(rt.alloc());
        write_root(&mut disk, manifest, behind)?;
        assert!(rt; reads_as(&mut disk, 0, bytes)?, "{manifest}");
    }
    Ok(())
}

// What a root is read as: its last record, none, or damage in a file at an offset.
type Read = Result<Option<RootRecord>, (u64, u64)>;

// Whether the root is read so.
fn is_read_as(alloc: Global, disk: &mut UnrecordedDisk, want: Read) -> bool {
    match root_replay(alloc, disk) {
        Ok(found) => want == Ok(found),
        Err(ReplayFault::Damaged { file, at }) => want == Err((file, at)),
        Err(_) => false,
    }
}

// Whether a root of these bytes is read so, beside file 1.
fn bytes_are_read_as(alloc: Global, bytes: &[u8], want: Read) -> Result<bool, Fail> {
    let mut disk = UnrecordedDisk::new(alloc);
    write_file(&mut disk, 1, b"")?;
    write_file(&mut disk, 0, bytes)?;
    Ok(is_read_as(alloc, &mut disk, want))
}

// What the root is read as where the byte at an offset is another one.
fn changed_at(at: usize) -> Read {
    match at {
        0..=7 => Err((0, 0)),
        8 => Ok(None),
        9..=29 => Err((0, 8)),
        _ => Ok(Some((2, false))),
    }
}

// Whether the root is read so with each other value of the byte at an offset.
fn change_is_read_as(alloc: Global, at: usize) -> Result<bool, Fail> {
    let mut bytes = ONE_ROOT;
    if let Some(byte) = bytes.get_mut(at) {
        *byte ^= 0xa5;
    }
    bytes_are_read_as(alloc, &bytes, changed_at(at))
}

#[test]
fn a_changed_byte_of_a_root_is_found(rt: HostRuntime) -> Result<(), Fail> {
    for at in 0..=30usize {
        assert!(rt; change_is_read_as(rt.alloc(), at)?, "at {at}");
    }
    Ok(())
}

// What the first bytes of the root are read as.
fn cut_at(cut: usize) -> Read {
    match cut {
        0..=7 => Err((0, 0)),
        8..=30 => Err((0, 8)),
        _ => Ok(Some((2, false))),
    }
}

#[test]
fn a_cut_root_is_found(rt: HostRuntime) -> Result<(), Fail> {
    for cut in 0..=31usize {
        let front = ONE_ROOT.get(..cut).unwrap_or(&[]);
        assert!(rt;
            bytes_are_read_as(rt.alloc(), front, cut_at(cut))?,
            "cut at {cut}"
        );
    }
    Ok(())
}

// Which of files 1, 0 and 2 are there, where 0 has one record, and what the root is read as.
const STORES: [(bool, bool, bool, Read); 6] = [
    (false, false, false, Ok(None)),
    (false, true, false, Ok(None)),
    (false, false, true, Err((1, 0))),
    (false, true, true, Err((1, 0))),
    (true, false, true, Err((0, 0))),
    (true, true, true, Ok(Some((2, false)))),
];

// Whether a store with these files is read so.
fn store_is_read_as(
    alloc: Global,
    mark: bool,
    root: bool,
    more: bool,
    want: Read,
) -> Result<bool, Fail> {
    let mut disk = UnrecordedDisk::new(alloc);
    if mark {
        write_file(&mut disk, 1, b"")?;
    }
    if root {
        write_file(&mut disk, 0, &ONE_ROOT)?;
    }
    if more {
        write_file(&mut disk, 2, b"")?;
    }
    Ok(is_read_as(alloc, &mut disk, want))
}

#[test]
fn a_new_store_has_no_root(rt: HostRuntime) -> Result<(), Fail> {
    for &(mark, root, more, want) in &STORES {
        assert!(rt;
            store_is_read_as(rt.alloc(), mark, root, more, want)?,
            "{mark} {root} {more}"
        );
    }
    Ok(())
}
