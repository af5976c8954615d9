ghost use Rattle.std.specs.Prelude.{◌≡◌, None};
ghost use Rattle.st_device.specs.Disk.{IsHonest};

use crate::disks::{FATES, left_by, reads_as};
use crate::puts::{append_both, one_put};
use st_device::{Disk, MemDisk, write_durably};
use st_gate::{GateLog, LogKind, ReplayFault};
use st_wal::{LogRecord, Logged, Wal, WalEnd};
use std::alloc::Global;
use std::test::Fail;

#[test]
fn a_put_has_its_bytes(rt: HostRuntime) -> Result<(), Fail> {
    let record = one_put(rt.alloc(), 1, 0, b"a", b"1")?;
    let bytes = b"\x01\0\0\0\0\0\0\0\x01\0\0\0\x01\0\0\0\0\x01a\x011";
    assert!(rt; record.as_bytes() == bytes.as_slice());
    Ok(())
}

#[test]
fn a_new_log_has_its_bytes(rt: HostRuntime) -> Result<(), Fail> {
    let mut disk = MemDisk::new(rt.alloc(), Vec::new(rt.alloc()));
    let wal = Wal::make(&mut disk, 3)?;
    assert!(rt; wal.length() == 9);
    assert!(rt; reads_as(&mut disk, 3, b"STWLOG01\0")?);
    Ok(())
}

// Makes a log in file 3 and appends the records: how many were answered Ok, where the log was made.
fn make_and_append<D: Disk>(disk: &mut D, one: &LogRecord, two: &LogRecord) -> Option<usize>
    requires { IsHonest (D.tells disk.old) → (D.tells disk.old).reads 3 ≡ None }
{
    match Wal::make(disk, 3) {
        Err(_) => None,
        Ok(mut wal) => Some(append_both(disk, &mut wal, one, two)),
    }
}

// Whether the operation has this number, in a record at this offset.
fn is_at(logged: &Logged, number: u64, at: u64) -> bool {
    logged.number == number && logged.at == at
}

// Whether these are the first of the two operations, or both.
fn are_first(operations: &[Logged]) -> bool {
    match operations {
        [] => true,
        [one] => is_at(one, 1, 8),
        [one, two] => is_at(one, 1, 8) && is_at(two, 2, 38),
        _ => false,
    }
}

// Whether file 3 has the first operations, as many as were answered Ok at least; it may be damaged where no log was made.
fn has_operations<D: Disk>(alloc: Global, disk: &mut D, appended: Option<usize>) -> bool {
    match Wal::replay(alloc, disk, 3) {
        Err(_) => appended.is_none(),
        Ok((operations, _)) => {
            appended.unwrap_or(0) <= operations.len() && are_first(operations.as_slice())
        }
    }
}

// Whether each crash of a disk that fails at this call leaves the first operations.
fn each_crash_leaves_operations(
    alloc: Global,
    failing: u64,
    one: &LogRecord,
    two: &LogRecord,
) -> Result<bool, Fail> {
    let mut disk = MemDisk::new(alloc, vec![in alloc; failing]?);
    let appended = make_and_append(&mut disk, one, two);
    let mut each = true;
    for fate in &FATES {
        each = has_operations(alloc, &mut left_by(alloc, &disk, *fate)?, appended) && each;
    }
    Ok(each)
}

#[test]
fn a_crash_leaves_whole_writes(rt: HostRuntime) -> Result<(), Fail> {
    let alloc = rt.alloc();
    let one = one_put(alloc, 1, 0, b"a", b"1")?;
    let two = one_put(alloc, 2, 0, b"key", b"value")?;
    for failing in 1..=16u64 {
        assert!(rt;
            each_crash_leaves_operations(alloc, failing, &one, &two)?,
            "call {failing}"
        );
    }
    Ok(())
}

// Payloads, and how many operations a log of one such record has, or the offset of its damage.
const PAYLOADS: [(&[u8], Result<usize, u64>); 13] = [
    (b"\x01\0\0\0\0\0\0\0\0\0\0\0", Ok(0)),
    (b"\x01\0\0\0\0\0\0\0\0\0\0", Err(8)),
    (b"\x01\0\0\0\0\0\0\0\x01\0\0\0\x01\0\0\0\0\x01a\x011", Ok(1)),
    (
        b"\x01\0\0\0\0\0\0\0\x01\0\0\0\x01\0\0\0\0\x81\0a\x811",
        Err(8),
    ),
    (
        b"\x01\0\0\0\0\0\0\0\x01\0\0\0\x01\0\0\0\0\x81\0a\x011",
        Ok(1),
    ),
    (b"\x01\0\0\0\0\0\0\0\x01\0\0\0\x00\xfe\xff\xff\xff\0", Ok(1)),
    (
        b"\x01\0\0\0\0\0\0\0\x01\0\0\0\x00\xff\xff\xff\xff\0",
        Err(8),
    ),
    (
        b"\x01\0\0\0\0\0\0\0\x01\0\0\0\x02\0\0\0\0\x01a\x011",
        Err(8),
    ),
    (
        b"\x01\0\0\0\0\0\0\0\x01\0\0\0\x01\0\0\0\0\x01a\x0112",
        Err(8),
    ),
    (b"\x01\0\0\0\0\0\0\0\x01\0\0\0\x01\0\0\0\0\x01a\x02", Err(8)),
    (b"\x01\0\0\0\0\0\0\0\xff\xff\xff\xff\x00\0\0\0\0\0", Err(8)),
    (
        b"\xff\xff\xff\xff\xff\xff\xff\0\x01\0\0\0\x00\0\0\0\0\0",
        Ok(1),
    ),
    (
        b"\xff\xff\xff\xff\xff\xff\xff\0\x02\0\0\0\x00\0\0\0\0\0\x00\0\0\0\0\0",
        Err(8),
    ),
];

// Makes a log in file 3 with a record of this payload.
fn write_payload<D: Disk>(disk: &mut D, payload: &[u8]) -> Result<(), Fail>
    requires { IsHonest (D.tells disk.old) → (D.tells disk.old).reads 3 ≡ None }
{
    let mut log = GateLog::make(disk, 3, LogKind::Log)?;
    log.append(disk, payload)?;
    Ok(())
}

// Whether file 3 is read as a log with so many operations, or with its damage at this offset.
fn is_read_as<D: Disk>(alloc: Global, disk: &mut D, want: Result<usize, u64>) -> bool {
    match Wal::replay(alloc, disk, 3) {
        Ok((operations, _)) => want == Ok(operations.len()),
        Err(ReplayFault::Damaged { file, at }) => file == 3 && want == Err(at),
        Err(_) => false,
    }
}

#[test]
fn a_payload_is_of_the_kind(rt: HostRuntime) -> Result<(), Fail> {
    let alloc = rt.alloc();
    for &(payload, want) in &PAYLOADS {
        let mut disk = MemDisk::new(alloc, Vec::new(alloc));
        write_payload(&mut disk, payload)?;
        assert!(rt; is_read_as(alloc, &mut disk, want), "{payload:?}");
    }
    Ok(())
}

// A log of two puts, whose gates stand at 8, 38 and 74, as the format has it.
const TWO_PUTS: [u8; 75] =
    *b"STWLOG01\x01\x15\0\0\0\x9f\xe2\xb3\x88\x01\0\0\0\0\0\0\0\x01\0\0\0\x01\0\0\0\0\x01a\x011\x01\x1b\0\0\0a\x87\x9c=\x02\0\0\0\0\0\0\0\x01\0\0\0\x01\0\0\0\0\x03key\x05value\0";

// The byte at an offset is made this one: how many operations stand in front, and the offset of the closed gate or of
// the damage.
const SCANS: [(usize, u8, usize, Result<u64, u64>); 8] = [
    (74, 0, 2, Ok(74)),
    (74, 1, 2, Err(74)),
    (38, 0, 1, Ok(38)),
    (73, b'E', 1, Err(38)),
    (43, 0, 1, Err(38)),
    (37, b'2', 0, Err(8)),
    (8, 0, 0, Ok(8)),
    (0, b's', 0, Err(0)),
];

// Where the operations end.
fn end_of(end: &WalEnd) -> Result<u64, u64> {
    match end {
        WalEnd::Gate(wal) => Ok(wal.log.at),
        WalEnd::Damage(at) => Err(*at),
    }
}

// Whether file 3 is scanned as so many operations in front of this end.
fn is_scanned_as<D: Disk>(
    alloc: Global,
    disk: &mut D,
    count: usize,
    end: Result<u64, u64>,
) -> bool {
    match Wal::scan(alloc, disk, 3) {
        Ok(scanned) => {
            let first = scanned.operations.as_slice();
            first.len() == count && are_first(first) && end_of(&scanned.end) == end
        }
        Err(_) => false,
    }
}

// The same of the two puts with this byte at an offset.
fn changed_is_scanned_as(
    alloc: Global,
    at: usize,
    byte: u8,
    count: usize,
    end: Result<u64, u64>,
) -> Result<bool, Fail> {
    let mut bytes = TWO_PUTS;
    if let Some(changed) = bytes.get_mut(at) {
        *changed = byte;
    }
    let mut disk = MemDisk::new(alloc, Vec::new(alloc));
    write_durably(&mut disk, 3, &bytes)?;
    Ok(is_scanned_as(alloc, &mut disk, count, end))
}

#[test]
fn operations_in_front_of_damage_are_read(rt: HostRuntime) -> Result<(), Fail> {
    for &(at, byte, count, end) in &SCANS {
        assert!(rt;
            changed_is_scanned_as(rt.alloc(), at, byte, count, end)?,
            "at {at}"
        );
    }
    Ok(())
}
