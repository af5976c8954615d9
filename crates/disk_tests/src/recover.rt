ghost use Rattle.st_device.specs.Disk.{IsHonest};
ghost use Rattle.st_wal.specs.Wal.{IsReady};

use crate::disks::{FATES, left_by};
use crate::puts::{append_both, one_put};
use log_recover::{OpenFault, recover};
use st_device::{Disk, MemDisk};
use st_gate::ReplayFault;
use st_wal::{LogRecord, Wal};
use std::alloc::Global;
use std::test::Fail;

// Whether the disk opens to so many operations, or is damaged at this offset of the log.
fn opens_as<D: Disk>(alloc: Global, disk: &mut D, want: Result<usize, u64>) -> bool {
    match recover(alloc, disk) {
        Ok((operations, _)) => want == Ok(operations.len()),
        Err(OpenFault::Damaged { file, at }) => file == 3 && want == Err(at),
        Err(_) => false,
    }
}

// Opens the store of a disk, or makes it, and writes the records: whether both were answered Ok.
fn write_both<D: Disk>(alloc: Global, disk: &mut D, one: &LogRecord, two: &LogRecord) -> bool {
    match recover(alloc, disk) {
        Ok((_, mut wal)) => append_both(disk, &mut wal, one, two) == 2,
        Err(_) => false,
    }
}

// The numbers of two operations, the family of the second, and how many operations a store of them opens to, or the
// offset of its damage.
const OPENED: [(u64, u64, u32, Result<usize, u64>); 6] = [
    (1, 2, 0, Ok(2)),
    (5, 9, 0, Ok(2)),
    (1, 1, 0, Err(38)),
    (2, 1, 0, Err(38)),
    (1, 2, 1, Err(38)),
    (0, 1, 0, Err(8)),
];

// Whether a new store with these records opens so.
fn written_opens_as(
    alloc: Global,
    one: &LogRecord,
    two: &LogRecord,
    want: Result<usize, u64>,
) -> bool {
    let mut disk = MemDisk::new(alloc, Vec::new(alloc));
    write_both(alloc, &mut disk, one, two) && opens_as(alloc, &mut disk, want)
}

#[test]
fn operations_are_opened_again(rt: HostRuntime) -> Result<(), Fail> {
    let alloc = rt.alloc();
    for &(first, second, family, want) in &OPENED {
        let one = one_put(alloc, first, 0, b"a", b"1")?;
        let two = one_put(alloc, second, family, b"a", b"1")?;
        assert!(rt;
            written_opens_as(alloc, &one, &two, want),
            "{first} {second} {family}"
        );
    }
    Ok(())
}

// Appends the records, and behind them one that isn't of the kind: whether each was answered Ok.
fn append_damaged<D: Disk>(disk: &mut D, wal: &mut Wal, one: &LogRecord, two: &LogRecord) -> bool
    requires { IsHonest (D.tells disk.old) → IsReady wal.old (D.tells disk.old) }
{
    if wal.append(disk, one).is_err() {
        return false;
    }
    if wal.append(disk, two).is_err() {
        return false;
    }
    wal.log.append(disk, b"").is_ok()
}

// Makes a store with these records and one that isn't of the kind behind them: whether each was answered Ok.
fn write_damaged<D: Disk>(alloc: Global, disk: &mut D, one: &LogRecord, two: &LogRecord) -> bool {
    match recover(alloc, disk) {
        Ok((_, mut wal)) => append_damaged(disk, &mut wal, one, two),
        Err(_) => false,
    }
}

// The numbers of two operations, in records at 8 and 38, and the offset of the first fault in front of the damage at
// 68, or that of the damage.
const FAULTS: [(u64, u64, u64); 4] = [(1, 2, 68), (2, 2, 38), (2, 1, 38), (0, 1, 8)];

// Whether a store with these records, and one that isn't of the kind behind them, is damaged at this offset.
fn damaged_opens_as(alloc: Global, one: &LogRecord, two: &LogRecord, at: u64) -> bool {
    let mut disk = MemDisk::new(alloc, Vec::new(alloc));
    write_damaged(alloc, &mut disk, one, two) && opens_as(alloc, &mut disk, Err(at))
}

#[test]
fn the_first_fault_of_a_log_is_told(rt: HostRuntime) -> Result<(), Fail> {
    let alloc = rt.alloc();
    for &(first, second, at) in &FAULTS {
        let one = one_put(alloc, first, 0, b"a", b"1")?;
        let two = one_put(alloc, second, 0, b"a", b"1")?;
        assert!(rt; damaged_opens_as(alloc, &one, &two, at), "{first} {second}");
    }
    Ok(())
}

#[test]
fn a_mark_without_a_log_is_damaged(rt: HostRuntime) -> Result<(), Fail> {
    let alloc = rt.alloc();
    let mut disk = MemDisk::new(alloc, Vec::new(alloc));
    disk.create(1)?;
    assert!(rt; opens_as(alloc, &mut disk, Err(0)));
    Ok(())
}

// Whether the store is opened or made, unless the disk fails.
fn opens_or_fails<D: Disk>(alloc: Global, disk: &mut D) -> bool {
    match recover(alloc, disk) {
        Ok(_) => true,
        Err(OpenFault::DiskFault) => true,
        Err(_) => false,
    }
}

// Whether a crash of a disk that fails at this call of an opening leaves a new store.
fn each_crash_leaves_new_store(alloc: Global, failing: u64) -> Result<bool, Fail> {
    let mut disk = MemDisk::new(alloc, vec![in alloc; failing]?);
    let mut each = opens_or_fails(alloc, &mut disk);
    for fate in &FATES {
        each = opens_as(alloc, &mut left_by(alloc, &disk, *fate)?, Ok(0)) && each;
    }
    Ok(each)
}

// Each device call of an opening fails in turn, and a crash then leaves a new store.
#[test]
fn a_crash_within_an_opening_leaves_a_new_store(rt: HostRuntime) -> Result<(), Fail> {
    let alloc = rt.alloc();
    for failing in 1..=12u64 {
        assert!(rt;
            each_crash_leaves_new_store(alloc, failing)?,
            "call {failing}"
        );
    }
    Ok(())
}

#[test]
fn faults_are_printed(rt: HostRuntime) -> Result<(), Fail> {
    let replayed = ReplayFault::Damaged { file: 3, at: 8 }.to_string(rt.alloc())?;
    let opened = OpenFault::Damaged { file: 3, at: 8 }.to_string(rt.alloc())?;
    assert!(rt; replayed.as_str() == "file 3 is damaged from its byte 8 on");
    assert!(rt; opened.as_str() == "the store is damaged: file 3, from its byte 8 on");
    Ok(())
}
