use crate::made::{Row, TableRow, counted_of, levels_of};
use opening_checks::least_unfallen;
use std::alloc::{AllocError, Global};

// Tables of a family, in the order of the walk.
#[derive(Clone, Copy)]
enum Sample {
    Nothing,
    Falling,
    ZeroLowest,
    ZeroAbove,
    EqualLowest,
    Twice,
    Rising,
    Far,
    One,
}

// The last number, the counted operations, the tables, and the file to blame.
type Case = (u64, &'static [Row], Sample, Option<u64>);

// Numbers that fall, on all levels.
static FALLING: [TableRow; 4] = [
    (0, 14, &[(b"a", 7)]),
    (0, 13, &[(b"b", 5), (b"a", 6)]),
    (1, 12, &[(b"a", 3)]),
    (6, 11, &[(b"a", 0)]),
];

// An entry of number 0 in the last level below one of number 0, and one in level 5.
static ZERO_LOWEST: [TableRow; 2] = [(5, 12, &[(b"a", 0)]), (6, 11, &[(b"a", 0)])];

static ZERO_ABOVE: [TableRow; 2] = [(4, 12, &[(b"a", 0)]), (5, 11, &[(b"a", 0)])];

// An entry of another number in the last level, below its equal.
static EQUAL_LOWEST: [TableRow; 2] = [(5, 12, &[(b"a", 4)]), (6, 11, &[(b"a", 4)])];

// Two tables of level 0 with one number of one key: the older one is to blame.
static TWICE: [TableRow; 2] = [(0, 11, &[(b"a", 5)]), (0, 12, &[(b"a", 5)])];

// Numbers that rise: what stands below is to blame, however far, and of several the least file.
static RISING: [TableRow; 4] = [
    (0, 14, &[(b"b", 2), (b"a", 3)]),
    (1, 13, &[(b"a", 4)]),
    (3, 12, &[(b"a", 2)]),
    (6, 11, &[(b"b", 2)]),
];

// Only the third table is to blame, by an entry of the first.
static FAR: [TableRow; 3] = [
    (0, 11, &[(b"a", 5)]),
    (0, 12, &[(b"a", 4)]),
    (2, 13, &[(b"a", 4)]),
];

static ONE: [TableRow; 1] = [(2, 11, &[(b"a", 5), (b"b", 8)])];

static CASES: [Case; 13] = [
    (9, &[], Sample::Nothing, None),
    (9, &[(b"a", 8)], Sample::Falling, None),
    (7, &[], Sample::Falling, None),
    (6, &[], Sample::Falling, Some(14)),
    (4, &[], Sample::Falling, Some(13)),
    (9, &[(b"b", 5), (b"c", 9)], Sample::Falling, Some(13)),
    (9, &[], Sample::ZeroLowest, None),
    (9, &[], Sample::ZeroAbove, Some(11)),
    (9, &[], Sample::EqualLowest, Some(11)),
    (9, &[], Sample::Twice, Some(12)),
    (9, &[], Sample::Rising, Some(11)),
    (9, &[], Sample::Far, Some(13)),
    (7, &[], Sample::One, Some(11)),
];

// The rows of the sample.
fn rows_of(sample: Sample) -> &'static [TableRow] {
    match sample {
        Sample::Nothing => &[],
        Sample::Falling => &FALLING,
        Sample::ZeroLowest => &ZERO_LOWEST,
        Sample::ZeroAbove => &ZERO_ABOVE,
        Sample::EqualLowest => &EQUAL_LOWEST,
        Sample::Twice => &TWICE,
        Sample::Rising => &RISING,
        Sample::Far => &FAR,
        Sample::One => &ONE,
    }
}

// Whether the file of the case is blamed.
fn is_blamed(alloc: Global, case: &Case) -> Result<bool, AllocError> {
    let counted = counted_of(alloc, case.1)?;
    let levels = levels_of(alloc, rows_of(case.2))?;
    Ok(least_unfallen(alloc, case.0, &counted, &levels)? == case.3)
}

#[test]
fn numbers_fall_along_the_walk(rt: HostRuntime) {
    for (place, case) in CASES.iter().enumerate() {
        let is_right = is_blamed(rt.alloc(), case).expect(&rt, "memory");
        assert!(rt; is_right, "case {place}");
    }
}
