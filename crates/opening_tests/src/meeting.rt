use crate::made::{Row, TableRow, run_of, tables_at};
use opening_checks::{are_by_first_key, has_twice, least_meeting};
use st_base::Scratch;
use std::alloc::{AllocError, Global};

// Tables of level 1, by their first keys.
#[derive(Clone, Copy)]
enum Sample {
    Nothing,
    Apart,
    Over,
    First,
    Equal,
    Touching,
    EmptyKey,
}

// Tables, and the least file of one that meets another.
type Case = (Sample, Option<u64>);

static APART: [TableRow; 3] = [
    (1, 13, &[(b"a", 1), (b"b", 2)]),
    (1, 11, &[(b"c", 1), (b"d", 2)]),
    (1, 12, &[(b"e", 1)]),
];

// The first table reaches over the second to the third.
static OVER: [TableRow; 4] = [
    (1, 14, &[(b"a", 1), (b"m", 2)]),
    (1, 13, &[(b"b", 1), (b"c", 2)]),
    (1, 12, &[(b"m", 1)]),
    (1, 11, &[(b"n", 1)]),
];

// Neither of the last two meets its neighbour: the first one reaches both.
static FIRST: [TableRow; 3] = [
    (1, 12, &[(b"a", 1), (b"z", 2)]),
    (1, 13, &[(b"b", 1)]),
    (1, 11, &[(b"d", 1)]),
];

// Equal first keys, and one key that is the last of a table and the first of the next.
static EQUAL: [TableRow; 3] = [
    (1, 13, &[(b"a", 1)]),
    (1, 12, &[(b"b", 1), (b"c", 2)]),
    (1, 11, &[(b"b", 1), (b"d", 2)]),
];

static TOUCHING: [TableRow; 2] = [(1, 12, &[(b"a", 1), (b"b", 2)]), (1, 11, &[(b"b", 1)])];

static EMPTY_KEY: [TableRow; 2] = [(1, 12, &[(b"", 1)]), (1, 11, &[(b"a", 1)])];

static CASES: [Case; 7] = [
    (Sample::Nothing, None),
    (Sample::Apart, None),
    (Sample::Over, Some(12)),
    (Sample::First, Some(11)),
    (Sample::Equal, Some(11)),
    (Sample::Touching, Some(11)),
    (Sample::EmptyKey, None),
];

// The rows of the sample.
fn rows_of(sample: Sample) -> &'static [TableRow] {
    match sample {
        Sample::Nothing => &[],
        Sample::Apart => &APART,
        Sample::Over => &OVER,
        Sample::First => &FIRST,
        Sample::Equal => &EQUAL,
        Sample::Touching => &TOUCHING,
        Sample::EmptyKey => &EMPTY_KEY,
    }
}

// Whether the file of the case is found.
fn is_found(alloc: Global, case: &Case) -> Result<bool, AllocError> {
    let tables = tables_at(alloc, 1, rows_of(case.0))?;
    let level = tables.as_slice();
    Ok(are_by_first_key(level) && least_meeting(level) == case.1)
}

#[test]
fn tables_that_meet_are_found(rt: HostRuntime) {
    for (place, case) in CASES.iter().enumerate() {
        let is_right = is_found(rt.alloc(), case).expect(&rt, "memory");
        assert!(rt; is_right, "case {place}");
    }
}

// Rows, and whether a key of them stands twice.
static ROWS: [(&[Row], bool); 4] = [
    (&[(b"a", 1)], false),
    (&[(b"a", 1), (b"b", 2)], false),
    (&[(b"b", 1), (b"b", 2)], true),
    (&[(b"", 1), (b"", 2)], true),
];

// Whether it is told.
fn is_told(alloc: Global, case: &(&'static [Row], bool)) -> Result<bool, AllocError> {
    let mut scratch = Scratch::new(alloc)?;
    let mut spare = Scratch::new(alloc)?;
    match run_of(alloc, case.0)? {
        Some(run) => Ok(has_twice(&run, &mut scratch, &mut spare) == case.1),
        None => Ok(false),
    }
}

#[test]
fn keys_that_stand_twice_are_told(rt: HostRuntime) {
    for (place, case) in ROWS.iter().enumerate() {
        let is_right = is_told(rt.alloc(), case).expect(&rt, "memory");
        assert!(rt; is_right, "case {place}");
    }
}
