ghost use Rattle.std.specs.Prelude.{◌≡◌, None};
ghost use Rattle.st_device.specs.Disk.{IsHonest};
ghost use Rattle.st_gate.specs.Rest.{IsAtRest};

use crate::disks::{FATES, left_by, reads_as};
use st_device::{Disk, MemDisk, write_durably};
use st_gate::{AppendFault, GateLog, LogKind, Record, ReplayFault};
use std::alloc::Global;
use std::test::Fail;

// Two records.
const FIRST: &[u8] = b"first";

const SECOND: &[u8] = b"second record";

// Appends the records: how many were answered Ok, up to the first that wasn't.
fn append_both<D: Disk>(disk: &mut D, log: &mut GateLog) -> usize
    requires { IsHonest (D.tells disk.old) → IsAtRest log.old (D.tells disk.old) }
{
    if log.append(disk, FIRST).is_err() {
        return 0;
    }
    if log.append(disk, SECOND).is_ok() {
        return 2;
    }
    1
}

// Makes a log in file 1 and appends the records: how many were answered Ok, where the log was made.
fn make_and_append<D: Disk>(disk: &mut D) -> Option<usize>
    requires { IsHonest (D.tells disk.old) → (D.tells disk.old).reads 1 ≡ None }
{
    match GateLog::make(disk, 1, LogKind::Log) {
        Err(_) => None,
        Ok(mut log) => Some(append_both(disk, &mut log)),
    }
}

// Whether the record has this payload, and its gate this offset.
fn is_at(record: &Record, payload: &[u8], at: u64) -> bool {
    record.payload.as_slice() == payload && record.at == at
}

// Whether these are the first of the two records, or both.
fn are_first(records: &[Record]) -> bool {
    match records {
        [] => true,
        [one] => is_at(one, FIRST, 8),
        [one, two] => is_at(one, FIRST, 8) && is_at(two, SECOND, 22),
        _ => false,
    }
}

// Whether file 1 has the first records, as many as were answered Ok at least; it may be damaged where no log was made.
fn has_records<D: Disk>(alloc: Global, disk: &mut D, appended: Option<usize>) -> bool {
    match GateLog::replay(alloc, disk, 1, LogKind::Log) {
        Err(_) => appended.is_none(),
        Ok((records, _)) => {
            appended.unwrap_or(0) <= records.len() && are_first(records.as_slice())
        }
    }
}

// Whether each crash of a disk that fails at this call leaves the first records.
fn each_crash_leaves_records(alloc: Global, failing: u64) -> Result<bool, Fail> {
    let mut disk = MemDisk::new(alloc, vec![in alloc; failing]?);
    let appended = make_and_append(&mut disk);
    let mut each = true;
    for fate in &FATES {
        each = has_records(alloc, &mut left_by(alloc, &disk, *fate)?, appended) && each;
    }
    Ok(each)
}

#[test]
fn a_crash_leaves_whole_records(rt: HostRuntime) -> Result<(), Fail> {
    let alloc = rt.alloc();
    for failing in 1..=16u64 {
        assert!(rt;
            each_crash_leaves_records(alloc, failing)?,
            "call {failing}"
        );
    }
    Ok(())
}

// A log of roots with records of 13, 0 and 5 bytes, whose gates stand at 8, 30, 39 and 53, as the format has it.
const THREE_RECORDS: [u8; 54] =
    *b"STROOT01\x01\x0d\0\0\0\x9a\xb6\xd61thirteen byte\x01\0\0\0\0\0\0\0\0\x01\x05\0\0\0\x12\xc1 \x96fives\0";

// How many of these records a log of roots has, and its bytes.
const ROOTS: [(usize, &[u8]); 3] = [
    (0, b"STROOT01\0"),
    (1, b"STROOT01\x01\x0d\0\0\0\x9a\xb6\xd61thirteen byte\0"),
    (3, &THREE_RECORDS),
];

// Appends the first of the three records, or all of them.
fn append_roots<D: Disk>(disk: &mut D, log: &mut GateLog, count: usize) -> Result<(), AppendFault>
    requires { IsHonest (D.tells disk.old) → IsAtRest log.old (D.tells disk.old) }
{
    log.append(disk, b"thirteen byte")?;
    if count == 1 {
        return Ok(());
    }
    log.append(disk, b"")?;
    log.append(disk, b"fives")
}

// Makes a log of roots in file 1 with none of the records, the first or all.
fn write_roots<D: Disk>(disk: &mut D, count: usize) -> Result<(), Fail>
    requires { IsHonest (D.tells disk.old) → (D.tells disk.old).reads 1 ≡ None }
{
    let mut log = GateLog::make(disk, 1, LogKind::Root)?;
    if count > 0 {
        append_roots(disk, &mut log, count)?;
    }
    Ok(())
}

#[test]
fn a_root_log_has_its_bytes(rt: HostRuntime) -> Result<(), Fail> {
    let alloc = rt.alloc();
    for &(count, bytes) in &ROOTS {
        let mut disk = MemDisk::new(alloc, Vec::new(alloc));
        write_roots(&mut disk, count)?;
        assert!(rt; reads_as(&mut disk, 1, bytes)?, "{count} records");
    }
    Ok(())
}

// Whether file 1 is read as a log of roots with so many records, or with its damage at this offset.
fn is_read_as<D: Disk>(alloc: Global, disk: &mut D, want: Result<usize, u64>) -> bool {
    match GateLog::replay(alloc, disk, 1, LogKind::Root) {
        Ok((records, _)) => want == Ok(records.len()),
        Err(ReplayFault::Damaged { file, at }) => file == 1 && want == Err(at),
        Err(_) => false,
    }
}

// The same of a file of these bytes.
fn are_read_as(alloc: Global, bytes: &[u8], want: Result<usize, u64>) -> Result<bool, Fail> {
    let mut disk = MemDisk::new(alloc, Vec::new(alloc));
    write_durably(&mut disk, 1, bytes)?;
    Ok(is_read_as(alloc, &mut disk, want))
}

// What the first bytes of the three records are read as.
fn cut_at(cut: usize) -> Result<usize, u64> {
    match cut {
        0..=7 => Err(0),
        8..=30 => Err(8),
        31..=39 => Err(30),
        40..=53 => Err(39),
        _ => Ok(3),
    }
}

#[test]
fn a_cut_has_its_place(rt: HostRuntime) -> Result<(), Fail> {
    for cut in 0..=54usize {
        let front = THREE_RECORDS.get(..cut).unwrap_or(&[]);
        assert!(rt;
            are_read_as(rt.alloc(), front, cut_at(cut))?,
            "cut at {cut}"
        );
    }
    Ok(())
}

// The bytes from an offset up to another one are made this byte, and what the three records then are read as.
const CHANGES: [(usize, usize, u8, Result<usize, u64>); 10] = [
    (0, 1, 7, Err(0)),
    (7, 8, b'2', Err(0)),
    (8, 9, 2, Ok(0)),
    (9, 13, 255, Err(8)),
    (9, 10, 12, Err(8)),
    (13, 14, 0, Err(8)),
    (17, 18, b'T', Err(8)),
    (39, 40, 0, Ok(2)),
    (48, 49, b'F', Err(39)),
    (53, 54, 1, Err(53)),
];

// Whether the three records are read so, with this byte from an offset up to another one.
fn changed_are_read_as(
    alloc: Global,
    from: usize,
    to: usize,
    byte: u8,
    want: Result<usize, u64>,
) -> Result<bool, Fail> {
    let mut bytes = THREE_RECORDS;
    if let Some(part) = bytes.get_mut(from..to) {
        part.fill(byte);
    }
    are_read_as(alloc, &bytes, want)
}

#[test]
fn damage_has_its_place(rt: HostRuntime) -> Result<(), Fail> {
    let alloc = rt.alloc();
    for &(from, to, byte, want) in &CHANGES {
        assert!(rt;
            changed_are_read_as(alloc, from, to, byte, want)?,
            "at {from}"
        );
    }
    Ok(())
}
