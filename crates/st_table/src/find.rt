ghost use Rattle.std.specs.Prelude.{◌≡◌, Some, IsTrue, option_map};
ghost use Rattle.st_base.specs.Order.{in_order, is_before};
ghost use Rattle.st_base.specs.Rows.{entry_of, lower_index, mark_of, newest, newest_there};

use crate::shared_entries::SharedEntries;
use st_base::{EntryRef, MarkRef, lower_index_parts_entries};
use std::cmp::Ordering;

/// Whether the entry comes before the key and the number.
pub(crate) fn is_before(entry: EntryRef<'_>, key: &[u8], number: u64) -> bool
    ensures { result ≡ is_before key.now number (entry_of entry.entry) }
{
    match entry.key.cmp(key) {
        Ordering::Less => true,
        Ordering::Equal => number < entry.number,
        Ordering::Greater => false,
    }
}

/// The index of the first entry at or after the key and the number, or the number of entries. It halves the entries that
/// are left at each step.
pub(crate) fn lower_in(entries: &SharedEntries, key: &[u8], number: u64) -> usize
    requires { IsTrue (in_order entries.now) }
    ensures { result ≡ lower_index entries.now key.now number }
{
    lower_index_parts_entries();
    let mut low = 0;
    let mut high = entries.len();
    while low < high {
        let middle = low + (high - low) / 2;
        if is_before(entries.entry(middle), key, number) {
            low = middle + 1;
        } else {
            high = middle;
        }
    }
    low
}

// The number and the mark of an entry, if it has the key.
fn newest_there<'a>(key: &[u8], entry: Option<EntryRef<'a>>) -> Option<(u64, MarkRef<'a>)>
    ensures { option_map (λ found. (found.0, mark_of found.1)) result
        ≡ newest_there key.now (option_map entry_of entry.entry) }
{
    match entry {
        Some(entry) if entry.key == key => Some((entry.number, entry.mark)),
        _ => None,
    }
}

/// The number and the mark of the first entry of the key at or below the number: none exactly where there is none.
pub(crate) fn newest_in<'a>(
    entries: &'a SharedEntries,
    key: &[u8],
    number: u64,
) -> Option<(u64, MarkRef<'a>)>
    requires { IsTrue (in_order entries.now) }
    ensures { option_map (λ found. (found.0, mark_of found.1)) result ≡ newest entries.now key.now number }
{
    lower_index_parts_entries();
    let index = lower_in(entries, key, number);
    newest_there(key, entries.get(index))
}
