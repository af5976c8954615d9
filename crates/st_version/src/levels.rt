ghost use Rattle.std.specs.Prelude.{◌≡◌, drop, flat_map, map, option_map};
ghost use Rattle.std.specs.List.{AllByRecursion};
ghost use Rattle.st_order.specs.Columns.{column};
ghost use Rattle.job_model.specs.Column.{found_at};
ghost use Rattle.st_base.specs.Levels.{levels_of};
ghost use Rattle.st_base.specs.Rows.{mark_of};
ghost use Rattle.job_model.specs.ByKey.{IsByKey};
ghost use Rattle.st_version.specs.ByKey.{started, starts_by};

use crate::finding::in_table;
use st_base::{Levels, MarkRef, Rows, Scratch};
use st_order::at_most;

// Whether the table's first key is at most this key; a table without entries starts with the key of no bytes.
fn starts_by<T: Rows>(table: &T, key: &[u8]) -> bool
    ensures { result ≡ starts_by key.now (T.rows table.now) }
{
    match table.first() {
        Some(first) => at_most(first, key),
        None => at_most(&[], key),
    }
}

// How many tables, which stand by key, start at or below the key: a search by halves.
fn started<T: Rows>(tables: &[T], key: &[u8]) -> usize
    requires { IsByKey (map T.rows tables.now) }
    ensures { result ≡ started key.now (map T.rows tables.now) }
{
    let mut low = 0;
    let mut high = tables.len();
    while low < high {
        let middle = low + (high - low) / 2;
        if starts_by(&tables[middle], key) {
            low = middle + 1;
        } else {
            high = middle;
        }
    }
    low
}

/// The first mark of the key at or below the number in tables that stand by key. It looks into one of them.
pub(crate) fn by_key<'a, T: Rows>(
    tables: &'a [T],
    key: &[u8],
    number: u64,
    scratch: &mut Scratch,
) -> Option<MarkRef<'a>>
    requires { IsByKey (map T.rows tables.now) }
    ensures { option_map mark_of result ≡ found_at number (column key.now (map T.rows tables.now)) }
{
    let count = started(tables, key);
    if count == 0 {
        return None;
    }
    in_table(&tables[count - 1], key, number, scratch)
}

/// The first mark of the key at or below the number in levels 1 to 6, whose tables stand by key.
pub(crate) fn in_levels<'a, T: Rows>(
    levels: &'a Levels<T>,
    key: &[u8],
    number: u64,
    scratch: &mut Scratch,
) -> Option<MarkRef<'a>>
    requires { AllByRecursion (λ tables. IsByKey (map T.rows tables)) (drop 1 (levels_of levels.now)) }
    ensures { option_map mark_of result
        ≡ found_at number (column key.now (map T.rows (flat_map (λ tables. tables) (drop 1 (levels_of levels.now))))) }
{
    let mut level = 1;
    while level <= 6 {
        if let Some(mark) = by_key(levels.at(level), key, number, scratch) {
            return Some(mark);
        }
        level += 1;
    }
    None
}
