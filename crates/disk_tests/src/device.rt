ghost use Rattle.std.specs.Prelude.{◌≡◌, None};
ghost use Rattle.st_device.specs.Disk.{IsHonest};

use crate::disks::reads_as;
use st_device::{Disk, Failed, Fate, MemDisk, UnrecordedDisk, write_durably, write_unsynced};
use std::alloc::Global;
use std::test::Fail;

// All of a write.
const W: Fate = Fate::Whole;

// A moment, the fates of the changes up to it, and what a crash then leaves of file 2.
const LEFT: [(usize, [Fate; 5], &[u8]); 7] = [
    (5, [W, W, W, Fate::Lost, Fate::Lost], b"abcd"),
    (5, [W, W, W, W, W], b"zbXY12"),
    (5, [W, W, W, Fate::Lost, W], b"zbcd"),
    (5, [W, W, W, Fate::Cut(1), Fate::Lost], b"abXd"),
    (5, [W, W, W, Fate::Filled(7), W], b"zb\x07\x07\x07\x07"),
    (
        5,
        [W, W, W, Fate::Longer(2), Fate::Longer(5)],
        b"zbXY12\0\0",
    ),
    (1, [W, W, W, W, W], b""),
];

// A file of `abcd`, durable, and two writes that are not: `XY12` at 2, and `z` at 0.
fn write_over<D: Disk>(disk: &mut D) -> Result<(), Failed>
    requires { IsHonest (D.tells disk.old) → (D.tells disk.old).reads 2 ≡ None }
{
    write_durably(disk, 2, b"abcd")?;
    disk.write(2, 2, b"XY12")?;
    disk.write(2, 0, b"z")
}

// Whether a crash at the moment, with these fates, leaves these bytes of file 2.
fn leaves(
    alloc: Global,
    disk: &MemDisk,
    moment: usize,
    fates: &[Fate],
    bytes: &[u8],
) -> Result<bool, Fail> {
    if moment > disk.moment() {
        return Ok(false);
    }
    let mut after = disk.after_crash(alloc, moment, fates, Vec::new(alloc))?;
    Ok(reads_as(&mut after, 2, bytes)?)
}

#[test]
fn a_crash_leaves_parts_of_writes(rt: HostRuntime) -> Result<(), Fail> {
    let alloc = rt.alloc();
    let mut disk = MemDisk::new(alloc, Vec::new(alloc));
    write_over(&mut disk)?;
    assert!(rt; disk.moment() == 5);
    for (moment, fates, bytes) in &LEFT {
        assert!(rt; leaves(alloc, &disk, *moment, fates, bytes)?, "{bytes:?}");
    }
    Ok(())
}

#[test]
fn a_write_without_a_sync_is_there_or_lost(rt: HostRuntime) -> Result<(), Fail> {
    let alloc = rt.alloc();
    let mut disk = MemDisk::new(alloc, Vec::new(alloc));
    write_unsynced(&mut disk, 2, b"ab")?;
    assert!(rt; leaves(alloc, &disk, 2, &[], b"ab")?);
    assert!(rt; leaves(alloc, &disk, 2, &[W, Fate::Lost], b"")?);
    Ok(())
}

#[test]
fn a_listed_call_fails(rt: HostRuntime) -> Result<(), Fail> {
    let alloc = rt.alloc();
    let mut disk = MemDisk::new(alloc, vec![in alloc; 2u64]?);
    assert!(rt; write_durably(&mut disk, 2, b"abcd").is_err());
    assert!(rt; disk.faults() == 1);
    assert!(rt; disk.calls() == 2);
    assert!(rt; disk.starved() == 0);
    disk.fail_at(Vec::new(alloc));
    assert!(rt; disk.files(alloc).is_ok());
    assert!(rt; reads_as(&mut disk, 2, b"")?);
    Ok(())
}

// Makes file 4 of two bytes, reads it, and removes it again: whether it came and went.
fn come_and_go<D: Disk>(disk: &mut D) -> Result<bool, Failed> {
    if disk.length(4)?.is_some() {
        return Ok(false);
    }
    write_durably(disk, 4, b"pq")?;
    let came = reads_as(disk, 4, b"pq")?;
    if disk.length(4)?.is_some() {
        disk.remove(4)?;
    }
    Ok(came && disk.length(4)?.is_none())
}

// Makes file 3: whether it is then the only one.
fn is_alone<D: Disk>(alloc: Global, disk: &mut D) -> Result<bool, Fail> {
    if disk.length(3)?.is_some() {
        return Ok(false);
    }
    disk.create(3)?;
    let names = disk.files(alloc)?;
    Ok(names.as_slice() == [3].as_slice())
}

#[test]
fn each_disk_keeps_a_file(rt: HostRuntime) -> Result<(), Fail> {
    let alloc = rt.alloc();
    let mut memory = MemDisk::new(alloc, Vec::new(alloc));
    assert!(rt; come_and_go(&mut memory)?);
    assert!(rt; is_alone(alloc, &mut memory)?);
    let mut unrecorded = UnrecordedDisk::new(alloc);
    assert!(rt; come_and_go(&mut unrecorded)?);
    assert!(rt; is_alone(alloc, &mut unrecorded)?);
    Ok(())
}
