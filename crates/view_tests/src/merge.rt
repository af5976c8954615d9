use crate::counted::{Counted, filled, key};
use crate::spelled::spelled;
use st_base::Rows;
use st_memtable::Mem;
use st_merge::{Merge, scan};
use st_order::{at_most, below};
use std::alloc::{AllocError, Global};

// Keys and values that are put one after the other, numbered from 1, in three runs: 4, 2 and 1 entries; no value is a
// tombstone.
static PAIRS: [(&[u8], &[u8]); 7] = [
    (b"a", b"1"),
    (b"c", b"2"),
    (b"e", b"3"),
    (b"g", b"4"),
    (b"c", b""),
    (b"f", b"6"),
    (b"a", b"7"),
];

// The parts in which the merged entries stand, with their indexes: a 7, a 1, c 5, c 2, e 3, f 6, g 4.
static MERGED: [(usize, usize); 7] = [(2, 0), (0, 0), (1, 0), (0, 1), (0, 2), (1, 1), (0, 3)];

// Whether the next entry of the merge stands there.
fn is_next<T: Rows>(merge: &mut Merge<'_, T>, part: usize, index: usize) -> bool {
    match merge.next() {
        Some(found) => found.part == part && found.index == index,
        None => false,
    }
}

// Whether the merge gives the merged entries, and then none, again and again.
fn gives_merged<T: Rows>(merge: &mut Merge<'_, T>) -> bool {
    for case in MERGED.iter() {
        if !is_next(merge, case.0, case.1) {
            return false;
        }
    }
    merge.next().is_none() && merge.next().is_none()
}

// Whether the runs of the memtable are merged.
fn is_merged(alloc: Global, mem: &Mem) -> Result<bool, AllocError> {
    let mut merge = Merge::new(alloc, mem.parts())?;
    Ok(gives_merged(&mut merge))
}

#[test]
fn runs_are_merged(rt: HostRuntime) {
    let counted = filled(rt.alloc(), &PAIRS, 7).expect(&rt, "memory");
    let is_right = is_merged(rt.alloc(), counted.mem()).expect(&rt, "memory");
    assert!(rt; is_right);
}

// The ends of a range, a number and a limit, and the pairs that a scan gives.
type Range = (&'static [u8], &'static [u8], u64, usize, &'static [u8]);

// The newest entry at or below the number counts, a tombstone shows nothing, and a limit cuts.
static SCANS: [Range; 7] = [
    (b"a", b"z", 7, 10, b" a=7 e=3 f=6 g=4"),
    (b"a", b"z", 4, 10, b" a=1 c=2 e=3 g=4"),
    (b"a", b"z", 2, 10, b" a=1 c=2"),
    (b"a", b"z", 0, 10, b""),
    (b"b", b"f", 7, 10, b" e=3 f=6"),
    (b"a", b"z", 7, 3, b" a=7 e=3 f=6"),
    (b"a", b"z", 7, 0, b""),
];

// Whether a scan gives these pairs.
fn is_scanned(alloc: Global, mem: &Mem, case: &Range) -> Result<bool, AllocError> {
    let first = key(alloc, case.0)?;
    let last = key(alloc, case.1)?;
    let found = scan(alloc, mem.parts(), &first, &last, case.2, case.3)?;
    let text = spelled(alloc, found.as_slice())?;
    Ok(text.as_slice() == case.4)
}

#[test]
fn a_range_is_scanned(rt: HostRuntime) {
    let counted = filled(rt.alloc(), &PAIRS, 7).expect(&rt, "memory");
    for (place, case) in SCANS.iter().enumerate() {
        let is_right = is_scanned(rt.alloc(), counted.mem(), case).expect(&rt, "memory");
        assert!(rt; is_right, "case {place}");
    }
}

// The memtable of three pairs, of which the first has a value of so many bytes.
fn three(alloc: Global, length: usize) -> Result<Counted, AllocError> {
    let long = vec![in alloc; b'v'; length]?;
    let pairs: [(&[u8], &[u8]); 3] = [(b"a", long.as_slice()), (b"b", b"w"), (b"c", b"x")];
    filled(alloc, &pairs, 3)
}

// How many pairs a scan over all keys gives.
fn count(alloc: Global, mem: &Mem) -> Result<usize, AllocError> {
    let first = key(alloc, b"a")?;
    let last = key(alloc, b"z")?;
    let found = scan(alloc, mem.parts(), &first, &last, 9, 10)?;
    Ok(found.len())
}

// A scan ends behind the pair with which its keys and values reach 1,048,576 bytes.
#[test]
fn a_scan_ends_by_bytes(rt: HostRuntime) {
    for (length, pairs) in [(1_048_575, 1), (1_048_574, 2)] {
        let counted = three(rt.alloc(), length).expect(&rt, "memory");
        let found = count(rt.alloc(), counted.mem()).expect(&rt, "memory");
        assert!(rt; found == pairs, "{length} bytes");
    }
}

#[test]
fn keys_are_compared(rt: HostRuntime) {
    assert!(rt;
        at_most(b"a", b"a") && below(b"a", b"b") && !below(b"b", b"b") && !at_most(b"b", b"a")
    );
}
