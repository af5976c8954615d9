use crate::family::{Pairs, Placed, TABLES, Table, View, memtable, placed, table, whole};
use crate::view::{Found, LEVELS, are_found};
use st_base::{List, Scratch};
use std::alloc::{AllocError, Global};

// A level, and the files of its tables in order.
type Standing = (u8, &'static [u64]);

// Level 0 stands newest first, and level 2 by key.
static BEFORE: [Standing; 4] = [(0, &[5, 4]), (1, &[3]), (2, &[1, 2]), (6, &[])];

// The tables of level 1 and the first of level 2, merged into one.
static MERGED: Placed = (
    6,
    2,
    20,
    &[(b"a", b"1"), (b"b", b"2"), (b"c", b"7"), (b"d", b"8")],
);

static AFTER: [Standing; 4] = [(0, &[5, 4]), (1, &[]), (2, &[6, 2]), (6, &[])];

// Whether these are the tables of these files.
fn have_files(tables: &[Table], files: &[u64]) -> bool {
    for (table, file) in tables.iter().zip(files.iter()) {
        if table.file() != *file {
            return false;
        }
    }
    tables.len() == files.len()
}

// Whether each level has these files.
fn stand(view: &View, levels: &[Standing]) -> bool {
    for case in levels.iter() {
        if case.0 > 6 || !have_files(view.level(case.0), case.1) {
            return false;
        }
    }
    true
}

// After the change inputs are gone, the output is found, and what stays is found as before.
static REPLACED: [Found; 4] = [
    (b"d", 99, b"8"),
    (b"e", 99, b"4"),
    (b"a", 99, b"12"),
    (b"f", 99, b"5"),
];

// Whether the family stands and reads so after the change.
fn has_replaced(alloc: Global, view: &View, scratch: &mut Scratch) -> Result<bool, AllocError> {
    let after = placed(alloc, view, &[3, 1], &MERGED)?;
    Ok(stand(&after, &AFTER) && are_found(&after, &REPLACED, scratch))
}

// The family from before the change stands and reads as it did.
#[test]
fn tables_are_replaced(rt: HostRuntime) {
    let mut scratch = Scratch::new(rt.alloc()).expect(&rt, "memory");
    let view = whole(rt.alloc()).expect(&rt, "memory");
    let is_right = has_replaced(rt.alloc(), &view, &mut scratch).expect(&rt, "memory");
    assert!(rt; is_right);
    assert!(rt; stand(&view, &BEFORE) && are_found(&view, &LEVELS, &mut scratch));
}

// Files that go out, a level, and whether a table of the keys `b` and `f` may come in there.
static FITS: [(&[u64], u8, bool); 5] = [
    (&[], 0, true),
    (&[], 1, false),
    (&[3], 1, true),
    (&[2], 2, false),
    (&[], 6, true),
];

static WIDE: Placed = (9, 0, 30, &[(b"b", b"x"), (b"f", b"y")]);

static NONE: Placed = (9, 0, 30, &[]);

// Whether the tables fit where they are told.
fn fits(
    alloc: Global,
    view: &View,
    inputs: &[u64],
    level: u8,
    tables: &[Table],
) -> Result<bool, AllocError> {
    if level > 6 {
        return Ok(false);
    }
    view.fits(alloc, inputs, level, tables)
}

#[test]
fn tables_fit_where_none_meets(rt: HostRuntime) {
    let view = whole(rt.alloc()).expect(&rt, "memory");
    let tables = [table(rt.alloc(), &WIDE).expect(&rt, "memory")];
    for case in FITS.iter() {
        let found = fits(rt.alloc(), &view, case.0, case.1, &tables).expect(&rt, "memory");
        assert!(rt; found == case.2, "level {}", case.1);
    }
}

// What a table keeps of itself: two entries of 35 bytes, of which the older has the number 10.
#[test]
fn a_table_keeps_its_sums(rt: HostRuntime) {
    let held = table(rt.alloc(), &TABLES[3]).expect(&rt, "memory");
    assert!(rt; held.file() == 4 && held.length() == 1000 && held.number() == 0);
    assert!(rt; held.charge() == 70 && held.least() == 10);
}

// What is found in a family whose memtables are this one alone.
static FLUSHED: [Found; 3] = [(b"b", 99, b"2"), (b"h", 99, b"17"), (b"g", 99, b"6")];

// The family with one memtable in place of its own.
fn with_one(alloc: Global, view: &View, pairs: Pairs) -> Result<View, AllocError> {
    let mem = memtable(alloc, &(16, pairs))?;
    view.with_memtables(mem, List::new(alloc))
}

#[test]
fn memtables_are_replaced(rt: HostRuntime) {
    let mut scratch = Scratch::new(rt.alloc()).expect(&rt, "memory");
    let view = whole(rt.alloc()).expect(&rt, "memory");
    let after = with_one(rt.alloc(), &view, &[(b"h", b"17")]).expect(&rt, "memory");
    assert!(rt; stand(&after, &BEFORE) && after.sealed().is_empty());
    assert!(rt; are_found(&after, &FLUSHED, &mut scratch));
}
