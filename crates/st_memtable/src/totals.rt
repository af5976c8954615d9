ghost use Rattle.std.specs.Prelude.{◌≡◌, ◌≤◌, Some, sum_by};
ghost use Rattle.std.specs.List.{AllByRecursion};
ghost use Rattle.st_base.specs.Entries.{add_charge, entry_charge, mark_length};
ghost use Rattle.st_base.specs.Rows.{Fits, FitsMark};
ghost use Rattle.st_memtable.specs.Memtable.{least_number, lesser};

use st_base::{ENTRY_CHARGE, Entry, Mark};

// The bytes of the mark's value.
fn mark_bytes(mark: &Mark) -> usize
    ensures bytes { result ≡ mark_length mark.now }
    ensures fits { FitsMark mark.now }
    ensures few { result ≤ 1048576 }
{
    match mark {
        Mark::Put(value) => value.as_bytes().len(),
        Mark::Gone => 0,
    }
}

// What the entry counts.
fn charge(entry: &Entry) -> u64
    ensures charge { result ≡ entry_charge entry.now.key entry.now.mark }
    ensures within { Fits entry.now }
{
    let key = entry.key.as_bytes().len();
    let _number = entry.number;
    ENTRY_CHARGE + key as u64 + mark_bytes(&entry.mark) as u64
}

/// The charge with these entries too; it stands still at the end of 64 bits.
pub(crate) fn charge_more(before: u64, entries: &[Entry]) -> u64
    ensures charge { result
        ≡ add_charge before (sum_by (λ entry. entry_charge entry.key entry.mark) entries.now) }
    ensures within { AllByRecursion Fits entries.now }
{
    let mut sum = before;
    for entry in entries {
        sum = sum.saturating_add(charge(entry));
    }
    sum
}

// The lesser of a number and one that may be there.
fn lesser(least: Option<u64>, number: u64) -> Option<u64>
    ensures { result ≡ lesser least (Some number) }
{
    match least {
        Some(other) => Some(other.min(number)),
        None => Some(number),
    }
}

/// The least number with these entries too.
pub(crate) fn least_more(before: Option<u64>, entries: &[Entry]) -> Option<u64>
    ensures { result ≡ lesser before (least_number entries.now) }
{
    let mut least = before;
    for entry in entries {
        least = lesser(least, entry.number);
    }
    least
}
