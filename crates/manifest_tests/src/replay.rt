use crate::disks::write_file;
use st_base::Bytes;
use st_device::UnrecordedDisk;
use st_gate::{AppendFault, GateLog, LogKind, ReplayFault};
use st_manifest::Manifest;
use std::alloc::{AllocError, Global};
use std::test::Fail;

// What a manifest is read as: so many edits, or damage at an offset.
type Read = Result<usize, u64>;

// Whether file 2 is read so.
fn is_read_as(alloc: Global, disk: &mut UnrecordedDisk, want: Read) -> bool {
    match Manifest::replay(alloc, disk, 2) {
        Ok(edits) => want == Ok(edits.len()),
        Err(ReplayFault::Damaged { file, at }) => file == 2 && want == Err(at),
        Err(_) => false,
    }
}

// Whether a manifest of these bytes is read so.
fn bytes_are_read_as(alloc: Global, bytes: &[u8], want: Read) -> Result<bool, Fail> {
    let mut disk = UnrecordedDisk::new(alloc);
    write_file(&mut disk, 2, bytes)?;
    Ok(is_read_as(alloc, &mut disk, want))
}

// A manifest of two groups. Family 0 and the last number 8 in two records, with gates at 8 and 28; a table and the last
// number 9 in one, with its gate at 50. The closed gate is at 102.
const TWO_GROUPS: [u8; 103] =
    *b"STMANI01\x01\x0b\0\0\0\x0c\x81f\x01\x01\0\0\0\x01\0\0\0\0\x01f\x01\x0d\0\0\0l\xb9>\xcd\0\0\0\0\x06\x08\0\0\0\0\0\0\0\x01+\0\0\0>\xa6\xbbH\0\0\0\0\x03\0\0\0\0\x06\x05\0\0\0\0\0\0\0\x84\x03\0\0\0\0\0\0\x07\0\0\0\0\0\0\0\x06\x09\0\0\0\0\0\0\0\0";

// What it is read as where the byte at an offset is another one. A gate that is closed ends the log, and a group that is
// begun in front of it adds no edit.
fn changed_at(at: usize) -> Read {
    match at {
        0..=7 => Err(0),
        8 => Ok(0),
        9..=27 => Err(8),
        28 => Ok(0),
        29..=49 => Err(28),
        50 => Ok(2),
        51..=101 => Err(50),
        _ => Ok(4),
    }
}

// Whether the manifest is read so with another byte at an offset.
fn change_is_read_as(alloc: Global, at: usize) -> Result<bool, Fail> {
    let mut bytes = TWO_GROUPS;
    if let Some(byte) = bytes.get_mut(at) {
        *byte ^= 0xa5;
    }
    bytes_are_read_as(alloc, &bytes, changed_at(at))
}

#[test]
fn a_changed_byte_of_a_manifest_is_found(rt: HostRuntime) -> Result<(), Fail> {
    for at in 0..=102usize {
        assert!(rt; change_is_read_as(rt.alloc(), at)?, "at {at}");
    }
    Ok(())
}

// What the first bytes of the manifest are read as.
fn cut_at(cut: usize) -> Read {
    match cut {
        0..=7 => Err(0),
        8..=28 => Err(8),
        29..=50 => Err(28),
        51..=102 => Err(50),
        _ => Ok(4),
    }
}

#[test]
fn a_cut_manifest_is_found(rt: HostRuntime) -> Result<(), Fail> {
    for cut in 0..=103usize {
        let front = TWO_GROUPS.get(..cut).unwrap_or(&[]);
        assert!(rt;
            bytes_are_read_as(rt.alloc(), front, cut_at(cut))?,
            "cut at {cut}"
        );
    }
    Ok(())
}

#[test]
fn another_file_is_no_manifest(rt: HostRuntime) -> Result<(), Fail> {
    let mut disk = UnrecordedDisk::new(rt.alloc());
    assert!(rt; is_read_as(rt.alloc(), &mut disk, Err(0)));
    assert!(rt; bytes_are_read_as(rt.alloc(), b"STROOT01\0", Err(0))?);
    assert!(rt; bytes_are_read_as(rt.alloc(), b"STMANI01\0", Ok(0))?);
    Ok(())
}

// Writes a manifest of these payloads, one record each, into file 2.
fn append_payloads(disk: &mut UnrecordedDisk, payloads: &[&[u8]]) -> Result<(), AppendFault> {
    let mut log = GateLog::make(disk, 2, LogKind::Manifest)?;
    for payload in payloads {
        log.append(disk, payload)?;
    }
    Ok(())
}

// Whether a manifest of these payloads is read so.
fn payloads_are_read_as(alloc: Global, payloads: &[&[u8]], want: Read) -> Result<bool, Fail> {
    let mut disk = UnrecordedDisk::new(alloc);
    append_payloads(&mut disk, payloads)?;
    Ok(is_read_as(alloc, &mut disk, want))
}

// Whether each row is read so.
fn each_is_read_as(alloc: Global, rows: &[(&[&[u8]], Read)]) -> Result<bool, Fail> {
    for &(payloads, want) in rows {
        if !payloads_are_read_as(alloc, payloads, want)? {
            return Ok(false);
        }
    }
    Ok(true)
}

// Payloads, with how many records they say follow. A payload of n bytes takes 9 + n, and the first gate is at 8.

// 20 bytes: family 0, the last number. None follows.
const FAMILY: &[u8] = b"\0\0\0\0\x01\0\0\0\0\x01f\x06\x08\0\0\0\0\0\0\0";

// 11 bytes: family 0. One record follows, or two.
const FAMILY_ONE: &[u8] = b"\x01\0\0\0\x01\0\0\0\0\x01f";

const FAMILY_TWO: &[u8] = b"\x02\0\0\0\x01\0\0\0\0\x01f";

// 11 bytes: family 1. None follows.
const OTHER: &[u8] = b"\0\0\0\0\x01\x01\0\0\0\x01g";

// 13 bytes: the last number. None follows, or one.
const LAST: &[u8] = b"\0\0\0\0\x06\x08\0\0\0\0\0\0\0";

const LAST_ONE: &[u8] = b"\x01\0\0\0\x06\x08\0\0\0\0\0\0\0";

// 34 bytes: table 5 of family 0. One record follows, or two.
const TABLE_ONE: &[u8] =
    b"\x01\0\0\0\x03\0\0\0\0\x06\x05\0\0\0\0\0\0\0\x84\x03\0\0\0\0\0\0\x07\0\0\0\0\0\0\0";

const TABLE_TWO: &[u8] =
    b"\x02\0\0\0\x03\0\0\0\0\x06\x05\0\0\0\0\0\0\0\x84\x03\0\0\0\0\0\0\x07\0\0\0\0\0\0\0";

// 22 bytes: log 3 is dropped, the last number. None follows.
const NO_LOG: &[u8] = b"\0\0\0\0\x08\x03\0\0\0\0\0\0\0\x06\x08\0\0\0\0\0\0\0";

// No edit. None follows.
const EMPTY: &[u8] = b"\0\0\0\0";

// Groups that are whole, begun, or don't count down.
const COUNTS: [(&[&[u8]], Read); 8] = [
    (&[], Ok(0)),
    (&[FAMILY], Ok(2)),
    (&[FAMILY_ONE], Ok(0)),
    (&[FAMILY_ONE, LAST], Ok(2)),
    (&[LAST, FAMILY_ONE], Ok(1)),
    (&[FAMILY_ONE, FAMILY_ONE], Err(28)),
    (&[FAMILY_TWO, LAST], Err(28)),
    (&[FAMILY_TWO, LAST_ONE, LAST], Err(50)),
];

// Groups that don't end with their one last number: damage at the gate of the last record.
const ENDS: [(&[&[u8]], Read); 4] = [
    (&[FAMILY_ONE, OTHER], Err(28)),
    (&[LAST_ONE, LAST], Err(30)),
    (&[EMPTY], Err(8)),
    (&[LAST, EMPTY], Err(30)),
];

// A faulty edit of a whole group is damage at its own record's gate; one of a group that is begun isn't judged.
const FAULTS: [(&[&[u8]], Read); 8] = [
    (&[TABLE_ONE, LAST], Err(8)),
    (&[TABLE_ONE], Ok(0)),
    (&[FAMILY, TABLE_ONE, LAST], Ok(4)),
    (&[FAMILY, TABLE_TWO, TABLE_ONE, LAST], Err(80)),
    (&[FAMILY, TABLE_TWO, TABLE_ONE], Ok(2)),
    (&[FAMILY_ONE, NO_LOG], Err(28)),
    (&[FAMILY, FAMILY], Err(37)),
    (&[TABLE_ONE, LAST, EMPTY], Err(8)),
];

#[test]
fn groups_count_down(rt: HostRuntime) -> Result<(), Fail> {
    assert!(rt; each_is_read_as(rt.alloc(), &COUNTS)?);
    Ok(())
}

#[test]
fn groups_end_with_their_last_number(rt: HostRuntime) -> Result<(), Fail> {
    assert!(rt; each_is_read_as(rt.alloc(), &ENDS)?);
    Ok(())
}

#[test]
fn faulty_edits_have_their_place(rt: HostRuntime) -> Result<(), Fail> {
    assert!(rt; each_is_read_as(rt.alloc(), &FAULTS)?);
    Ok(())
}

// Payloads that aren't of the kind: without a count; with an unknown edit, a cut one, a level 7, the last id, the last
// file, a number too great, a letter that no name has, a name without letters, and one that is cut.
const OTHERS: [&[u8]; 12] = [
    b"",
    b"\0\0\0",
    b"\0\0\0\0\x09",
    b"\0\0\0\0\0",
    b"\0\0\0\0\x06\x08\0\0\0\0\0\0",
    b"\0\0\0\0\x03\0\0\0\0\x07\x05\0\0\0\0\0\0\0\x84\x03\0\0\0\0\0\0\x07\0\0\0\0\0\0\0",
    b"\0\0\0\0\x02\xff\xff\xff\xff",
    b"\0\0\0\0\x07\xff\xff\xff\xff\xff\xff\xff\xff",
    b"\0\0\0\0\x06\0\0\0\0\0\0\0\x01",
    b"\0\0\0\0\x01\x01\0\0\0\x01G",
    b"\0\0\0\0\x01\x01\0\0\0\0",
    b"\x01\0\0\0\x01\x01\0\0\0\x02g",
];

#[test]
fn a_payload_of_another_kind_is_damage(rt: HostRuntime) -> Result<(), Fail> {
    for payload in &OTHERS {
        assert!(rt; payloads_are_read_as(rt.alloc(), &[FAMILY, payload, LAST], Err(37))?);
    }
    Ok(())
}

// The payload of a group of one record that adds so many logs.
fn logs_payload(alloc: Global, count: u64) -> Result<Bytes, AllocError> {
    let mut payload = Bytes::new(alloc);
    payload.extend_from_slice(b"\0\0\0\0")?;
    for i in 0..count {
        payload.push(7)?;
        payload.extend_from_slice(&i.saturating_add(2).to_le_bytes())?;
    }
    payload.extend_from_slice(b"\x06\x08\0\0\0\0\0\0\0")?;
    Ok(payload)
}

// A payload of 4,090 bytes is of the kind, and one of 4,099 isn't.
const LONG: [(u64, Read); 2] = [(453, Ok(454)), (454, Err(8))];

#[test]
fn a_payload_has_4096_bytes_at_most(rt: HostRuntime) -> Result<(), Fail> {
    for &(count, want) in &LONG {
        let payload = logs_payload(rt.alloc(), count)?;
        assert!(rt; payloads_are_read_as(rt.alloc(), &[payload.as_slice()], want)?);
    }
    Ok(())
}
