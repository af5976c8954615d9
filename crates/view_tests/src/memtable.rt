use crate::counted::{Counted, filled, put};
use st_base::{Rows, Scratch};
use st_memtable::Mem;
use std::alloc::{AllocError, Global};

// Keys and values that are put one after the other, numbered from 1; no value is a tombstone.
static PAIRS: [(&[u8], &[u8]); 3] = [(b"b", b"x"), (b"d", b"y"), (b"b", b"")];

// Keys that are put one after the other, and how many runs each leaves.
static RUNS: [(&[u8], usize); 4] = [(b"a", 1), (b"b", 1), (b"a", 2), (b"c", 1)];

// Whether each of these keys leaves so many runs.
fn leave_runs(alloc: Global) -> Result<bool, AllocError> {
    let mut counted = Counted::new(alloc);
    for case in RUNS.iter() {
        counted = put(alloc, &counted, case.0, b"v")?;
        if counted.mem().runs() != case.1 {
            return Ok(false);
        }
    }
    Ok(true)
}

// Four calls of `with`, one entry each, leave 1, 1, 2 and 1 runs.
#[test]
fn runs_halve(rt: HostRuntime) {
    let is_right = leave_runs(rt.alloc()).expect(&rt, "memory");
    assert!(rt; is_right);
}

// How many runs the memtable of the first pairs has, and how many when it is settled.
fn runs_of(alloc: Global, count: usize) -> Result<(usize, usize), AllocError> {
    let counted = filled(alloc, &PAIRS, count)?;
    let settled = counted.mem().settled()?;
    Ok((counted.mem().runs(), settled.runs()))
}

// `settled` of three entries has one run, and of none has none.
#[test]
fn runs_are_settled(rt: HostRuntime) {
    for (count, runs, settled) in [(3, 2, 1), (2, 1, 1), (0, 0, 0)] {
        let found = runs_of(rt.alloc(), count).expect(&rt, "memory");
        assert!(rt; found.0 == runs && found.1 == settled, "{count} entries");
    }
}

// Keys and numbers, and the number of the newest entry of the key at or below the number; 0 where there is none.
static NEWEST: [(&[u8], u64, u64); 5] = [
    (b"b", 3, 3),
    (b"b", 2, 1),
    (b"b", 0, 0),
    (b"c", 9, 0),
    (b"d", 9, 2),
];

// The ends of ranges, and the least key within; no bytes where there is none.
static LEAST: [(&[u8], &[u8], &[u8]); 4] = [
    (b"a", b"c", b"b"),
    (b"c", b"z", b"d"),
    (b"b", b"b", b"b"),
    (b"c", b"c", b""),
];

// The number of the newest entry of the key at or below the number, or 0.
fn newest(mem: &Mem, key: &[u8], number: u64) -> u64 {
    match mem.find(key, number) {
        Some(found) => found.0,
        None => 0,
    }
}

// Whether each newest entry is found.
fn are_found(mem: &Mem) -> bool {
    for case in NEWEST.iter() {
        if newest(mem, case.0, case.1) != case.2 {
            return false;
        }
    }
    true
}

// Whether the key is the one wanted, where no bytes stand for none.
fn is_key(key: Option<&[u8]>, wanted: &[u8]) -> bool {
    match key {
        Some(key) => key == wanted,
        None => wanted.is_empty(),
    }
}

// Whether each range has its least key.
fn are_least(mem: &Mem) -> bool {
    for case in LEAST.iter() {
        if !is_key(mem.range_has(case.0, case.1), case.2) {
            return false;
        }
    }
    true
}

// Whether the memtable of the three pairs is read, with its charge and its least number.
fn is_read(alloc: Global) -> Result<bool, AllocError> {
    let counted = filled(alloc, &PAIRS, 3)?;
    let mem = counted.mem();
    Ok(are_found(mem) && are_least(mem) && mem.charge() == 101 && mem.least() == Some(1))
}

#[test]
fn a_memtable_is_read(rt: HostRuntime) {
    let is_right = is_read(rt.alloc()).expect(&rt, "memory");
    assert!(rt; is_right);
    assert!(rt; Mem::new(rt.alloc()).least().is_none());
}

// Whether these rows are the first two entries: `b` with number 1 and `d` with number 2.
fn are_two<T: Rows>(rows: &T, scratch: &mut Scratch) -> bool {
    rows.len() == 2
        && is_key(rows.first(), b"b")
        && is_key(rows.last(), b"d")
        && rows.lower(b"b", 1, scratch) == 0
        && rows.lower(b"b", 0, scratch) == 1
        && rows.lower(b"e", 0, scratch) == 2
}

// The number of the newest entry of the key in these rows, or 0.
fn newest_row<T: Rows>(rows: &T, key: &[u8], scratch: &mut Scratch) -> u64 {
    match rows.newest(key, 9, scratch) {
        Some(found) => found.0,
        None => 0,
    }
}

// Whether the memtable of the first two pairs gives one run with both.
fn is_run(alloc: Global, scratch: &mut Scratch) -> Result<bool, AllocError> {
    let counted = filled(alloc, &PAIRS, 2)?;
    match counted.mem().parts() {
        [run] => Ok(are_two(run, scratch) && newest_row(run, b"d", scratch) == 2),
        _ => Ok(false),
    }
}

// A run as rows.
#[test]
fn a_run_is_rows(rt: HostRuntime) {
    let mut scratch = Scratch::new(rt.alloc()).expect(&rt, "memory");
    let is_right = is_run(rt.alloc(), &mut scratch).expect(&rt, "memory");
    assert!(rt; is_right);
}
