use opening_checks::{last_number, unrisen};
use st_base::{Key, Mark};
use st_wal::Logged;
use std::alloc::{AllocError, Global};

// The number before, the numbers of operations, of which the one at index i has the place 10 i, the place that doesn't rise,
// and the last number.
type Case = (u64, &'static [u64], Option<u64>, u64);

static CASES: [Case; 7] = [
    (0, &[], None, 0),
    (5, &[], None, 5),
    (0, &[1, 2, 9], None, 9),
    (0, &[0], Some(0), 0),
    (0, &[1, 1], Some(10), 1),
    (4, &[5, 6, 3], Some(20), 3),
    (4, &[4, 5], Some(0), 5),
];

// The operations with these numbers.
fn logged(alloc: Global, numbers: &[u64]) -> Result<Vec<Logged>, AllocError> {
    let mut operations = Vec::new(alloc);
    let mut at: u64 = 0;
    for number in numbers {
        let key = match Key::new(alloc, b"k") {
            Ok(key) => key,
            Err(_) => return Err(AllocError),
        };
        operations.push(Logged {
            number: *number,
            family: 0,
            key,
            mark: Mark::Gone,
            at,
        })?;
        at = at.saturating_add(10);
    }
    Ok(operations)
}

// Whether the case is told.
fn is_told(alloc: Global, case: &Case) -> Result<bool, AllocError> {
    let operations = logged(alloc, case.1)?;
    Ok(
        unrisen(case.0, operations.as_slice()) == case.2
            && last_number(case.0, operations.as_slice()) == case.3,
    )
}

#[test]
fn numbers_rise_over_logs(rt: HostRuntime) {
    for (place, case) in CASES.iter().enumerate() {
        let is_right = is_told(rt.alloc(), case).expect(&rt, "memory");
        assert!(rt; is_right, "case {place}");
    }
}
