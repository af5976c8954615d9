ghost use Rattle.std.specs.Prelude.{◌≡◌, true, find};
ghost use Rattle.std.specs.Option.{option_copied};
ghost use Rattle.std.specs.List.{AllByRecursion};
ghost use Rattle.st_base.specs.Order.{in_order, is_before};
ghost use Rattle.st_base.specs.Rows.{Fits, lower_index};
ghost use Rattle.st_order.specs.Sorted.{joined, sorted};
ghost use Rattle.st_order.specs.Order.{between};
ghost use Rattle.st_memtable.specs.Runs.{lies_in, sooner, suits, values};

use crate::join::comes_before;
use crate::run::Run;
use st_base::Entry;
use st_order::at_most;
use std::cmp::Ordering;
use std::sync::Arc;

// Whether the entry comes before the position of the key and the number.
fn is_before(entry: &Entry, key: &[u8], number: u64) -> bool
    ensures { result ≡ is_before key.now number entry.now }
{
    match entry.key.as_bytes().cmp(key) {
        Ordering::Less => true,
        Ordering::Equal => number < entry.number,
        Ordering::Greater => false,
    }
}

/// How many entries of the run come before the position of the key and the number: a search by halves.
pub(crate) fn lower_in(run: &[Arc<Entry>], key: &[u8], number: u64) -> usize
    requires { in_order (values run.now) ≡ true }
    ensures { result ≡ lower_index (values run.now) key.now number }
{
    let mut low = 0;
    let mut high = run.len();
    while low < high {
        let middle = low + (high - low) / 2;
        if is_before(&run[middle], key, number) {
            low = middle + 1;
        } else {
            high = middle;
        }
    }
    low
}

/// The first entry of the key in the run that is at or below the number.
pub(crate) fn newest_in<'a>(run: &'a [Arc<Entry>], key: &[u8], number: u64) -> Option<&'a Entry>
    requires { in_order (values run.now) ≡ true }
    ensures { option_copied result ≡ find (suits key.now number) (values run.now) }
{
    let index = lower_in(run, key, number);
    if index == run.len() {
        return None;
    }
    let entry: &'a Entry = &run[index];
    if entry.key.as_bytes() == key {
        Some(entry)
    } else {
        None
    }
}

// The first entry of the run whose key lies in the range.
fn first_in<'a>(run: &'a [Arc<Entry>], first: &[u8], last: &[u8]) -> Option<&'a Entry>
    requires ordered { in_order (values run.now) ≡ true }
    requires within { AllByRecursion Fits (values run.now) }
    ensures { option_copied result ≡ find (lies_in (between first.now last.now)) (values run.now) }
{
    let index = lower_in(run, first, u64::MAX);
    if index == run.len() {
        return None;
    }
    let entry: &'a Entry = &run[index];
    if at_most(entry.key.as_bytes(), last) {
        Some(entry)
    } else {
        None
    }
}

// Of two entries the one that comes first.
fn sooner<'a>(one: Option<&'a Entry>, other: Option<&'a Entry>) -> Option<&'a Entry>
    ensures { option_copied result ≡ sooner (option_copied one.entry) (option_copied other.entry) }
{
    match one {
        Some(x) => match other {
            Some(y) => { if comes_before(y, x) { Some(y) } else { Some(x) } }
            None => Some(x),
        },
        None => other,
    }
}

/// The first entry of the key in the runs that is at or below the number.
pub(crate) fn newest<'a>(runs: &'a [Run], key: &[u8], number: u64) -> Option<&'a Entry>
    ensures { option_copied result ≡ find (suits key.now number) (sorted (joined runs.now)) }
{
    let mut found = None;
    for run in runs {
        found = sooner(found, newest_in(run.as_slice(), key, number));
    }
    found
}

/// The first entry of the runs whose key lies in the range.
pub(crate) fn first_of<'a>(runs: &'a [Run], first: &[u8], last: &[u8]) -> Option<&'a Entry>
    ensures { option_copied result ≡ find (lies_in (between first.now last.now)) (sorted (joined runs.now)) }
{
    let mut found = None;
    for run in runs {
        found = sooner(found, first_in(run.as_slice(), first, last));
    }
    found
}
