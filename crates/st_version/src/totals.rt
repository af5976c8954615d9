ghost use Rattle.std.specs.Prelude.{◌≡◌, ◌∷◌, [], Some, if◌then◌else◌, filter, nat_lt};
ghost use Rattle.st_base.specs.Entries.{add_charge, entry_charge, mark_length};
ghost use Rattle.st_base.specs.Range.{entries_charge};
ghost use Rattle.st_base.specs.Rows.{AreRows, Fits, FitsMark, entry_of, mark_of};
ghost use Rattle.st_memtable.specs.Memtable.{least_number, lesser};
ghost use Rattle.st_version.specs.Held.{least_above_zero};

use st_base::{ENTRY_CHARGE, EntryRef, MarkRef, Rows, Scratch};

// The bytes of the mark's value.
fn mark_bytes(mark: MarkRef<'_>) -> usize
    ensures { result ≡ mark_length (mark_of mark.entry) }
{
    match mark {
        MarkRef::Put(value) => value.len(),
        MarkRef::Gone => 0,
    }
}

// The sum with what the entry counts.
fn charge_more(sum: u64, entry: EntryRef<'_>) -> u64
    ensures { result ≡ add_charge sum (entry_charge (entry_of entry.entry).key (entry_of entry.entry).mark) }
{
    let key = entry.key.len() as u64;
    let value = mark_bytes(entry.mark) as u64;
    sum.saturating_add(ENTRY_CHARGE)
        .saturating_add(key)
        .saturating_add(value)
}

// The lesser of a number and one that may be there, where 0 doesn't count.
fn least_more(least: Option<u64>, number: u64) -> Option<u64>
    ensures { result ≡ (if nat_lt 0 number then lesser least (Some number) else least) }
{
    if number == 0 {
        return least;
    }
    match least {
        Some(other) => Some(other.min(number)),
        None => Some(number),
    }
}

/// What is kept of a table's entries: the sum of their charges, as far as 64 bits hold it, and their least number above 0,
/// or 0 where there is none.
#[derive(Clone, Copy)]
pub(crate) struct Totals {
    pub(crate) charge: u64,
    pub(crate) least: u64,
}

/// The totals of the rows, in one pass over them.
pub(crate) fn totals_of<T: Rows>(table: &T, scratch: &mut Scratch) -> Totals
    ensures rows { AreRows (T.rows table.now) }
    ensures charge { result.charge ≡ entries_charge (T.rows table.now) }
    ensures least { result.least ≡ least_above_zero (T.rows table.now) }
{
    let mut charge = 0;
    let mut least = None;
    let count = table.len();
    for i in 0..count {
        let entry = table.at(i, scratch);
        charge = charge_more(charge, entry);
        least = least_more(least, entry.number);
    }
    Totals {
        charge,
        least: least.unwrap_or(0),
    }
}
