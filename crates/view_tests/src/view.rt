use crate::counted::key;
use crate::family::{View, whole};
use crate::spelled::spelled;
use st_base::{MarkRef, Scratch};
use std::alloc::{AllocError, Global};

/// A key, a number, and what is found: a value, no bytes for a tombstone, and `-` for nothing.
pub type Found = (&'static [u8], u64, &'static [u8]);

// Memtables come first, the newest before the older,
static MEMORY: [Found; 6] = [
    (b"h", 99, b"16"),
    (b"h", 15, b"-"),
    (b"b", 99, b"15"),
    (b"b", 14, b"13"),
    (b"b", 12, b"2"),
    (b"g", 99, b""),
];

/// then level 0 from the newest, and then the levels.
pub static LEVELS: [Found; 8] = [
    (b"a", 99, b"12"),
    (b"a", 11, b"10"),
    (b"a", 9, b"1"),
    (b"a", 0, b"-"),
    (b"c", 10, b"7"),
    (b"c", 6, b"3"),
    (b"e", 99, b""),
    (b"e", 8, b"4"),
];

static MISSED: [Found; 4] = [
    (b"g", 13, b"6"),
    (b"f", 4, b"-"),
    (b"d", 7, b"-"),
    (b"z", 99, b"-"),
];

// Whether this was found.
fn is_mark(found: Option<MarkRef<'_>>, wanted: &[u8]) -> bool {
    match found {
        Some(MarkRef::Put(value)) => value == wanted,
        Some(MarkRef::Gone) => wanted.is_empty(),
        None => wanted == b"-".as_slice(),
    }
}

/// Whether each of these is found in the family.
pub fn are_found(view: &View, cases: &[Found], scratch: &mut Scratch) -> bool {
    for case in cases.iter() {
        if !is_mark(view.find(case.0, case.1, scratch), case.2) {
            return false;
        }
    }
    true
}

#[test]
fn a_view_finds_the_first_mark(rt: HostRuntime) {
    let mut scratch = Scratch::new(rt.alloc()).expect(&rt, "memory");
    let view = whole(rt.alloc()).expect(&rt, "memory");
    assert!(rt; are_found(&view, &MEMORY, &mut scratch));
    assert!(rt; are_found(&view, &LEVELS, &mut scratch));
    assert!(rt; are_found(&view, &MISSED, &mut scratch));
}

// The ends of a range, a number and a limit, and the pairs that a scan gives.
type Range = (&'static [u8], &'static [u8], u64, usize, &'static [u8]);

// Each key once with its newest value at the number, and no tombstone, up to the limit.
static RANGES: [Range; 7] = [
    (b"a", b"z", 99, 10, b" a=12 b=15 c=11 d=8 f=5 h=16"),
    (b"a", b"z", 14, 10, b" a=12 b=13 c=11 d=8 f=5"),
    (b"a", b"z", 11, 10, b" a=10 b=2 c=11 d=8 f=5 g=6"),
    (b"a", b"z", 6, 10, b" a=1 b=2 c=3 e=4 f=5 g=6"),
    (b"b", b"d", 99, 10, b" b=15 c=11 d=8"),
    (b"a", b"z", 99, 2, b" a=12 b=15"),
    (b"a", b"z", 0, 10, b""),
];

// Whether the scan gives these pairs.
fn is_scanned(alloc: Global, view: &View, case: &Range) -> Result<bool, AllocError> {
    let first = key(alloc, case.0)?;
    let last = key(alloc, case.1)?;
    let found = view.scan(alloc, &first, &last, case.2, case.3)?;
    let text = spelled(alloc, found.as_slice())?;
    Ok(text.as_slice() == case.4)
}

#[test]
fn a_view_is_scanned(rt: HostRuntime) {
    let view = whole(rt.alloc()).expect(&rt, "memory");
    for (place, case) in RANGES.iter().enumerate() {
        let is_right = is_scanned(rt.alloc(), &view, case).expect(&rt, "memory");
        assert!(rt; is_right, "case {place}");
    }
}

// A part of a merge for each run of its three memtables, and for each of its five tables.
#[test]
fn a_view_has_its_parts(rt: HostRuntime) {
    let view = whole(rt.alloc()).expect(&rt, "memory");
    let parts = view.parts(rt.alloc()).expect(&rt, "memory");
    assert!(rt; parts.len() == 8);
    assert!(rt; view.id() == 7 && view.sealed().len() == 2 && view.mem().charge() == 35);
}
