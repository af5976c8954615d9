use crate::samples::{ONE, ROCKSDB, shared};
use st_base::{
    BlockFault, Bytes, EntryRef, KEY_BYTES, MarkRef, Renumber, Rows, Scratch, TableFault as Fault,
    VALUE_BYTES,
};
use st_code::crc32c;
use st_table::{OpenTableFault, Table, TableKind, own_numbers_stay, table_or_first_fault};
use std::alloc::{AllocError, Global};
use table_writer::{AddFault, TableWriter};

const EXTERNAL: TableKind = TableKind::External;

const OWN: TableKind = TableKind::Own;

type Case = (
    usize,
    &'static [u8],
    usize,
    &'static [u8],
    TableKind,
    Option<Fault>,
);

// What is put at an offset of that table, the block's sum that is made new at another, and the fault that is found.
static CASES: [Case; 26] = [
    // Nothing changed.
    (0, b"", 0, b"", EXTERNAL, None),
    // The same bytes as an own table.
    (0, b"", 0, b"", OWN, None),
    // Padding of the footer.
    (290, b"U", 0, b"", EXTERNAL, None),
    // Magic number.
    (326, b"\x87", 0, b"", EXTERNAL, Some(Fault::Magic)),
    // Version.
    (315, b"\x03", 0, b"", EXTERNAL, Some(Fault::Version(3))),
    // Checksum type.
    (274, b"\x04", 0, b"", EXTERNAL, Some(Fault::Checksum(4))),
    // Metaindex handle points out of the file.
    (276, b"\xff", 0, b"", EXTERNAL, Some(Fault::Handle(275))),
    // Index handle reaches into the footer.
    (
        278,
        b"\x1a\xf4\x01",
        0,
        b"",
        EXTERNAL,
        Some(Fault::Handle(278)),
    ),
    // Compression type.
    (21, b"\x01", 0, b"", EXTERNAL, Some(Fault::Compressed(0))),
    // Value.
    (
        12,
        b"2",
        0,
        b"",
        EXTERNAL,
        Some(Fault::Sum {
            at: 0,
            stored: 3276478267,
            found: 2004322086,
        }),
    ),
    // Restart count.
    (
        17,
        b"\xff\xff\xff\xff",
        22,
        b"2\x14\x88\x8e",
        EXTERNAL,
        Some(Fault::Block(0, BlockFault::Restarts)),
    ),
    // Range deletions.
    (
        237,
        b"\x00\x11\x04rocksdb.range_del",
        270,
        b"Uq|+",
        EXTERNAL,
        Some(Fault::RangeDel),
    ),
    // No properties.
    (
        257,
        b"S",
        270,
        b"O\xdf{\xc2",
        EXTERNAL,
        Some(Fault::NoProperties),
    ),
    // Properties handle has a byte after it.
    (
        258,
        b"53\x00",
        270,
        b"\x15\x8bm3",
        EXTERNAL,
        Some(Fault::Handle(258)),
    ),
    // External version 1.
    (
        185,
        b"\x01",
        233,
        b"\x09i\xfa\x05",
        EXTERNAL,
        Some(Fault::ExternalVersion(Some(1))),
    ),
    // External version 1 of an own table.
    (185, b"\x01", 233, b"\x09i\xfa\x05", OWN, None),
    // No external version.
    (
        184,
        b"m",
        233,
        b"\xe0\x96\x04\xe7",
        EXTERNAL,
        Some(Fault::ExternalVersion(None)),
    ),
    // Comparator.
    (
        74,
        b"L",
        233,
        b"\xb2\xdaB\x83",
        EXTERNAL,
        Some(Fault::Comparator),
    ),
    // Index type of eight bytes.
    (
        53,
        b"\x00$\x08rocksdb.block.based.table.index.type\x00\x00\x00\x00\x00\x00\x00\x00",
        233,
        b"C\xd0\xfe\xd4",
        EXTERNAL,
        Some(Fault::IndexKind),
    ),
    // Index key before the last key.
    (
        29,
        b"`",
        49,
        b"\xe3\x18\x11\x9a",
        EXTERNAL,
        Some(Fault::Index(0)),
    ),
    // Index key of number 2^56-1 and kind 22.
    (
        29,
        b"b\x16\xff\xff\xff\xff\xff\xff\xff",
        49,
        b"$\xaeu\xb8",
        EXTERNAL,
        None,
    ),
    // Data handle doesn't parse.
    (
        38,
        b"\xff\xff",
        49,
        b"\x84\x1b\\\xd5",
        EXTERNAL,
        Some(Fault::Handle(38)),
    ),
    // Kind 2.
    (
        4,
        b"\x02",
        22,
        b"\xed\xf9\xb4\xce",
        EXTERNAL,
        Some(Fault::Kind(0, 2)),
    ),
    // Tombstone with a value.
    (
        4,
        b"\x00",
        22,
        b"\x89\x1d!\xc7",
        EXTERNAL,
        Some(Fault::Kind(0, 0)),
    ),
    // Number 1.
    (
        5,
        b"\x01",
        22,
        b"\x82~\xf9:",
        EXTERNAL,
        Some(Fault::Number(0, 1)),
    ),
    // Number 1 of an own table.
    (5, b"\x01", 22, b"\x82~\xf9:", OWN, None),
];

// Puts the bytes over those at the offset.
fn patch(text: &mut Vec<u8>, at: usize, bytes: &[u8]) {
    for i in 0..bytes.len() {
        if i < text.len() && at < text.len() - i {
            text[at + i] = bytes[i];
        }
    }
}

fn open(alloc: Global, text: &[u8], kind: TableKind) -> Result<Table, OpenTableFault> {
    Table::open(alloc, shared(alloc, text)?, kind, 0)
}

fn fault_in(alloc: Global, text: &[u8], kind: TableKind) -> Result<Option<Fault>, AllocError> {
    match open(alloc, text, kind) {
        Ok(_table) => Ok(None),
        Err(OpenTableFault::Bad(fault)) => Ok(Some(fault)),
        Err(OpenTableFault::OutOfMemory) => Err(AllocError),
    }
}

// The fault of the table with a case's changes.
fn fault_of(alloc: Global, case: &Case) -> Result<Option<Fault>, AllocError> {
    let mut text = Vec::from_slice(alloc, &ONE)?;
    patch(&mut text, case.0, case.1);
    patch(&mut text, case.2, case.3);
    fault_in(alloc, &text, case.4)
}

#[test]
fn faults_are_found(rt: HostRuntime) {
    for case in CASES.iter() {
        let fault = fault_of(rt.alloc(), case).expect(&rt, "memory");
        assert!(rt; fault == case.5, "at {}", case.0);
    }
}

#[test]
fn a_front_is_short(rt: HostRuntime) {
    // Without its last 300 bytes.
    let fault = fault_in(rt.alloc(), &ONE[..27], EXTERNAL).expect(&rt, "memory");
    assert!(rt; fault == Some(Fault::Short));
}

/// A key, and the value or the tombstone that it is set to.
pub(crate) type Row<'a> = (&'a [u8], Option<&'a [u8]>);

// The entries of RocksDB's table.
static ENTRIES: [Row<'static>; 5] = [
    (b"a", Some(b"1")),
    (b"ab", Some(b"22")),
    (b"b", None),
    (b"ba", Some(b"")),
    (b"c", Some(b"\x00x")),
];

// The mark that a row sets its key to.
fn mark_of(value: Option<&[u8]>) -> MarkRef<'_> {
    match value {
        Some(value) => MarkRef::Put(value),
        None => MarkRef::Gone,
    }
}

// Whether the entry at the index is that of the row, with number 0, and is found under its key.
fn has_row(table: &Table, place: usize, row: Row<'_>, scratch: &mut Scratch) -> bool {
    let mark = mark_of(row.1);
    if table.find(row.0, 0, scratch) != Some((0, mark)) || place >= table.len() {
        return false;
    }
    let entry = table.at(place, scratch);
    entry.key == row.0 && entry.number == 0 && entry.mark == mark
}

// Whether a table has these rows.
fn are_rows(alloc: Global, table: &Table, rows: &[Row<'_>]) -> Result<bool, AllocError> {
    if table.len() != rows.len() {
        return Ok(false);
    }
    let mut scratch = Scratch::new(alloc)?;
    for (place, row) in rows.iter().enumerate() {
        if !has_row(table, place, *row, &mut scratch) {
            return Ok(false);
        }
    }
    Ok(true)
}

/// Whether the bytes are an external table of these rows.
pub(crate) fn has_rows(alloc: Global, text: &[u8], rows: &[Row<'_>]) -> Result<bool, AllocError> {
    match open(alloc, text, EXTERNAL) {
        Ok(table) => are_rows(alloc, &table, rows),
        Err(_fault) => Ok(false),
    }
}

#[test]
fn a_table_of_rocksdb_is_opened(rt: HostRuntime) {
    let is_opened = has_rows(rt.alloc(), &ROCKSDB, &ENTRIES).expect(&rt, "memory");
    assert!(rt; is_opened);
}

// Appends an entry, if it is within the limits.
fn put(
    alloc: Global,
    writer: &mut TableWriter,
    key: &[u8],
    number: u16,
    value: Option<&[u8]>,
) -> Result<bool, AddFault> {
    if key.len() > KEY_BYTES {
        return Ok(false);
    }
    let number = number as u64;
    let mark = match value {
        Some(value) if value.len() <= VALUE_BYTES => MarkRef::Put(value),
        _ => MarkRef::Gone,
    };
    writer.add(alloc, EntryRef { key, number, mark })?;
    Ok(true)
}

// A table that is written.
#[derive(Clone, Copy)]
enum Sample {
    // The key `a` with the value `1`.
    One,
    // 22 entries, every seventh a tombstone from the fourth on.
    Several,
    // 400 entries of an own table, two of each key, every fifth a tombstone.
    Many,
}

// The value of an entry, or none where it is a tombstone.
fn value_unless(is_gone: bool, value: &'static [u8]) -> Option<&'static [u8]> {
    if is_gone { None } else { Some(value) }
}

// Appends one of the 22 entries.
fn put_of_several(alloc: Global, writer: &mut TableWriter, i: u8) -> Result<bool, AddFault> {
    let key = [b'k', b'e', b'y', b'0' + i / 10 % 10, b'0' + i % 10];
    let value = value_unless(i % 7 == 3, b"a value of some bytes");
    put(alloc, writer, &key, 0, value)
}

// The key of two of the 400 entries.
fn key_of_many(i: u16) -> [u8; 6] {
    [
        b'k',
        b'e',
        b'y',
        b'0' + (i / 100 % 10) as u8,
        b'0' + (i / 10 % 10) as u8,
        b'0' + (i % 10) as u8,
    ]
}

// Appends one of the 400 entries.
fn put_of_many(alloc: Global, writer: &mut TableWriter, i: u16) -> Result<bool, AddFault> {
    let key = key_of_many(i / 2);
    let value = value_unless(i % 5 == 4, b"a value of some thirty bytes ..");
    put(alloc, writer, &key, 1000u16.saturating_sub(i), value)
}

// Appends the 22 entries.
fn put_several(alloc: Global, writer: &mut TableWriter) -> Result<bool, AddFault> {
    for i in 0..22u8 {
        put_of_several(alloc, writer, i)?;
    }
    Ok(true)
}

// Appends the 400 entries.
fn put_many(alloc: Global, writer: &mut TableWriter) -> Result<bool, AddFault> {
    for i in 0..400u16 {
        put_of_many(alloc, writer, i)?;
    }
    Ok(true)
}

// Appends the entries of a table.
fn put_all(alloc: Global, writer: &mut TableWriter, sample: Sample) -> Result<bool, AddFault> {
    match sample {
        Sample::One => put(alloc, writer, b"a", 0, Some(b"1")),
        Sample::Several => put_several(alloc, writer),
        Sample::Many => put_many(alloc, writer),
    }
}

// The table of the writer with the entries.
fn fill(alloc: Global, writer: &mut TableWriter, sample: Sample) -> Option<Bytes> {
    put_all(alloc, writer, sample).ok()?;
    writer.finish(alloc).ok()
}

fn written(alloc: Global, kind: TableKind, sample: Sample) -> Option<Bytes> {
    match TableWriter::new(alloc, kind) {
        Ok(mut writer) => fill(alloc, &mut writer, sample),
        Err(_error) => None,
    }
}

#[test]
fn one_entry_is_written(rt: HostRuntime) {
    let text = written(rt.alloc(), EXTERNAL, Sample::One).expect(&rt, "a table");
    assert!(rt; text.as_slice() == ONE.as_slice());
}

// The length of the table of 22 entries, its sum, and where its footer's padding begins, as another writer made it.
const LENGTH: usize = 997;

const SUM: u32 = 0x0338_98b3;

const PADDING: usize = 951;

// The same of the table of 400 entries.
const MANY_LENGTH: usize = 15_011;

const MANY_SUM: u32 = 0x35ab_1927;

static SAMPLES: [(TableKind, Sample, usize, u32); 2] = [
    (EXTERNAL, Sample::Several, LENGTH, SUM),
    (OWN, Sample::Many, MANY_LENGTH, MANY_SUM),
];

#[test]
fn many_entries_are_written(rt: HostRuntime) {
    for (kind, sample, length, sum) in SAMPLES.iter() {
        let text = written(rt.alloc(), *kind, *sample).expect(&rt, "a table");
        assert!(rt; text.len() == *length, "of {length} bytes");
        assert!(rt; crc32c(text.as_slice()) == *sum, "of {length} bytes");
    }
}

// Whether two tables have the same entries.
fn are_same(alloc: Global, one: &Table, other: &Table) -> Result<bool, AllocError> {
    if one.len() != other.len() {
        return Ok(false);
    }
    let mut scratch = Scratch::new(alloc)?;
    let mut other_scratch = Scratch::new(alloc)?;
    for place in 0..one.len() {
        if one.at(place, &mut scratch) != other.at(place, &mut other_scratch) {
            return Ok(false);
        }
    }
    Ok(true)
}

// Whether the bytes are an external table, and whether it has the entries before.
fn accepts(alloc: Global, text: &[u8], before: &Table) -> Result<Option<bool>, AllocError> {
    match open(alloc, text, EXTERNAL) {
        Ok(table) => Ok(Some(are_same(alloc, &table, before)?)),
        Err(_fault) => Ok(None),
    }
}

// Changes the byte at the offset, or changes it back.
fn flip(text: &mut [u8], place: usize, change: u8) {
    if let Some(byte) = text.get_mut(place) {
        *byte ^= change;
    }
}

// How many of the changes of the byte at the offset are accepted, and whether all that are have the entries before.
fn changes_accepted(
    alloc: Global,
    text: &mut [u8],
    place: usize,
    before: &Table,
) -> Result<(u32, bool), AllocError> {
    let mut accepted = 0u32;
    let mut are_all = true;
    for change in 1..=255u8 {
        flip(text, place, change);
        if let Some(is_same) = accepts(alloc, text, before)? {
            accepted = accepted.saturating_add(1);
            are_all = are_all && is_same;
        }
        flip(text, place, change);
    }
    Ok((accepted, are_all))
}

// How many of the changes of the byte at the offset leave a table: all of the padding, and of the byte before it that
// which makes its varint one byte longer.
fn unseen_changes(place: usize) -> u32 {
    if (PADDING..LENGTH - 12).contains(&place) {
        return 255;
    }
    if place == PADDING - 1 { 1 } else { 0 }
}

// The first offset at which other changes are accepted than those that are unseen, if there is one.
fn wrongly_accepted(
    alloc: Global,
    text: &mut [u8],
    before: &Table,
) -> Result<Option<usize>, AllocError> {
    for place in 0..text.len() {
        let accepted = changes_accepted(alloc, text, place, before)?;
        if accepted != (unseen_changes(place), true) {
            return Ok(Some(place));
        }
    }
    Ok(None)
}

// The length of the first front of the bytes that is accepted, if there is one.
fn accepted_front(alloc: Global, text: &[u8]) -> Result<Option<usize>, AllocError> {
    for end in 0..text.len() {
        if fault_in(alloc, &text[..end], EXTERNAL)?.is_none() {
            return Ok(Some(end));
        }
    }
    Ok(None)
}

#[test]
fn cuts_are_found(rt: HostRuntime) {
    let text = written(rt.alloc(), EXTERNAL, Sample::Several).expect(&rt, "a table");
    let accepted = accepted_front(rt.alloc(), text.as_slice()).expect(&rt, "memory");
    assert!(rt; accepted == None, "the first {accepted:?} bytes");
}

#[test]
fn changes_are_found(rt: HostRuntime) {
    let text = written(rt.alloc(), EXTERNAL, Sample::Several).expect(&rt, "a table");
    let before = open(rt.alloc(), text.as_slice(), EXTERNAL)
        .ok()
        .expect(&rt, "a table");
    assert!(rt; before.len() == 22);
    let mut text = text.into_vec();
    let place = wrongly_accepted(rt.alloc(), &mut text, &before).expect(&rt, "memory");
    assert!(rt; place == None, "at {place:?}");
}

// A key and a number, the index of the first entry at or after them, and the number of the newest entry of the key.
type Search = (&'static [u8], u64, usize, Option<u64>);

static SEARCHES: [Search; 6] = [
    (b"key010", 980, 20, Some(980)),
    (b"key010", 979, 21, Some(979)),
    (b"key010", 978, 22, None),
    (b"key", 0, 0, None),
    (b"key199", 5_000, 398, Some(602)),
    (b"zebra", 5_000, 400, None),
];

// The number of what was found.
fn number_of(found: Option<(u64, MarkRef<'_>)>) -> Option<u64> {
    match found {
        Some((number, _mark)) => Some(number),
        None => None,
    }
}

// Whether each of them is found.
fn are_found(table: &Table, scratch: &mut Scratch) -> bool {
    for (key, number, place, newest) in SEARCHES.iter() {
        if table.lower(key, *number, scratch) != *place
            || number_of(table.find(key, *number, scratch)) != *newest
            || number_of(table.newest(key, *number, scratch)) != *newest
        {
            return false;
        }
    }
    true
}

#[test]
fn blocks_are_searched(rt: HostRuntime) {
    let text = written(rt.alloc(), OWN, Sample::Many).expect(&rt, "a table");
    let table = open(rt.alloc(), text.as_slice(), OWN)
        .ok()
        .expect(&rt, "a table");
    let mut scratch = Scratch::new(rt.alloc()).expect(&rt, "memory");
    assert!(rt; are_found(&table, &mut scratch));
    assert!(rt; table.first() == Some(b"key000".as_slice()));
    assert!(rt; table.last() == Some(b"key199".as_slice()));
}

// The external table of these bytes, whose entries act under the number.
fn open_under(alloc: Global, text: &[u8], number: u64) -> Result<Table, OpenTableFault> {
    table_or_first_fault();
    Table::open(alloc, shared(alloc, text)?, TableKind::External, number)
}

// Whether the table has 22 entries, which act under number 9, with their charge.
fn acts_under_nine(table: &Table, scratch: &mut Scratch) -> bool {
    table.len() == 22
        && number_of(table.find(b"key02", 9, scratch)) == Some(9)
        && number_of(table.find(b"key02", 8, scratch)) == None
        && table.charge() == 1_213
}

#[test]
fn entries_act_under_a_number(rt: HostRuntime) {
    let text = written(rt.alloc(), EXTERNAL, Sample::Several).expect(&rt, "a table");
    let table = open_under(rt.alloc(), text.as_slice(), 9)
        .ok()
        .expect(&rt, "a table");
    let mut scratch = Scratch::new(rt.alloc()).expect(&rt, "memory");
    assert!(rt; acts_under_nine(&table, &mut scratch));
}

// Whether the external table of these bytes, put under number 9, acts under it, and the table that it shares its entries
// with acts under its own numbers as before.
fn is_shared(alloc: Global, text: &[u8], scratch: &mut Scratch) -> Result<bool, OpenTableFault> {
    table_or_first_fault();
    own_numbers_stay();
    let table = Table::open(alloc, shared(alloc, text)?, TableKind::External, 0)?;
    let numbered = table.with_number(alloc, 9)?;
    Ok(
        acts_under_nine(&numbered, scratch)
            && number_of(table.find(b"key02", 8, scratch)) == Some(0)
            && table.charge() == numbered.charge(),
    )
}

#[test]
fn a_table_is_put_under_a_number(rt: HostRuntime) {
    let text = written(rt.alloc(), EXTERNAL, Sample::Several).expect(&rt, "a table");
    let mut scratch = Scratch::new(rt.alloc()).expect(&rt, "memory");
    let is_right = is_shared(rt.alloc(), text.as_slice(), &mut scratch)
        .ok()
        .expect(&rt, "a table");
    assert!(rt; is_right);
}
