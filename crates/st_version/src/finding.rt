ghost use Rattle.std.specs.Prelude.{◌≡◌, map, option_map};
ghost use Rattle.st_order.specs.Columns.{column, of_key};
ghost use Rattle.job_model.specs.Column.{found_at};
ghost use Rattle.st_base.specs.Rows.{mark_of};
ghost use Rattle.st_version.specs.Held.{entries_in};

use st_base::{MarkRef, Rows, Scratch};
use st_memtable::Mem;
use std::sync::Arc;

/// The first mark of the key at or below the number in a memtable.
pub(crate) fn in_memtable<'a>(mem: &'a Mem, key: &[u8], number: u64) -> Option<MarkRef<'a>>
    ensures { option_map mark_of result ≡ found_at number (of_key key.now mem.now.entries) }
{
    match mem.find(key, number) {
        Some(found) => Some(found.1),
        None => None,
    }
}

/// The first mark of the key at or below the number in memtables, one after the other.
pub(crate) fn in_memtables<'a>(
    memtables: &'a [Arc<Mem>],
    key: &[u8],
    number: u64,
) -> Option<MarkRef<'a>>
    ensures { option_map mark_of result ≡ found_at number (column key.now (entries_in memtables.now)) }
{
    for mem in memtables {
        if let Some(mark) = in_memtable(mem, key, number) {
            return Some(mark);
        }
    }
    None
}

/// The first mark of the key at or below the number in a table.
pub(crate) fn in_table<'a, T: Rows>(
    table: &'a T,
    key: &[u8],
    number: u64,
    scratch: &mut Scratch,
) -> Option<MarkRef<'a>>
    ensures { option_map mark_of result ≡ found_at number (of_key key.now (T.rows table.now)) }
{
    match table.newest(key, number, scratch) {
        Some(found) => Some(found.1),
        None => None,
    }
}

/// The first mark of the key at or below the number in tables, one after the other.
pub(crate) fn in_tables<'a, T: Rows>(
    tables: &'a [T],
    key: &[u8],
    number: u64,
    scratch: &mut Scratch,
) -> Option<MarkRef<'a>>
    ensures { option_map mark_of result ≡ found_at number (column key.now (map T.rows tables.now)) }
{
    for table in tables {
        if let Some(mark) = in_table(table, key, number, scratch) {
            return Some(mark);
        }
    }
    None
}
