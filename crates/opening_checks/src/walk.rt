ghost use Rattle.std.specs.Prelude.{◌≡◌, ◌≤◌, ◌<◌, [], Some, IfOk, OnOk, drop, length, option_map, slice_get, slice_index_or};
ghost use Rattle.st_base.specs.Rows.{AreRows, Fits, entry_of};
ghost use Rattle.st_base.specs.declared.entry.Entry.{Entry};
ghost use Rattle.st_version.specs.Held.{tables_of};
ghost use Rattle.opening_checks.specs.Heads.{IsPut};
ghost use Rattle.opening_checks.specs.Walk.{file_of, walk_runs};

use crate::heads::{Heads, put};
use st_base::{EntryRef, KEY_BYTES, Key, MakeFault, Rows, Scratch};
use st_version::Held;
use std::alloc::{AllocError, Global};
use std::sync::Arc;

// The key of these bytes, of which there are few enough.
fn key_of(alloc: Global, bytes: &[u8]) -> Result<Key, AllocError>
    requires { length bytes.now ≤ KEY_BYTES }
    ensures { IfOk result (λ key. key ≡ bytes.now) }
{
    match Key::new(alloc, bytes) {
        Ok(key) => Ok(key),
        Err(MakeFault::OutOfMemory) => Err(AllocError),
        Err(MakeFault::Limit) => unreachable!(),
    }
}

// The key of the entry at the index, if there is one.
fn key_at<T: Rows>(
    alloc: Global,
    rows: &T,
    index: usize,
    scratch: &mut Scratch,
) -> Result<Option<Key>, AllocError>
    ensures { IfOk result (λ key. key ≡ option_map (λ (entry : Entry). entry.key) (slice_get (T.rows rows.now) index)) }
{
    if index >= rows.len() {
        return Ok(None);
    }
    let entry = rows.at(index, scratch);
    let key = key_of(alloc, entry.key)?;
    Ok(Some(key))
}

// The number of the entry at the index.
fn number_at<T: Rows>(rows: &T, index: usize, scratch: &mut Scratch) -> u64
    requires { index < length (T.rows rows.now) }
    ensures value { option_map (λ (entry : Entry). entry.number) (slice_get (T.rows rows.now) index) ≡ Some result }
    ensures fits { index < 18446744073709551615 }
{
    let _length = rows.len();
    rows.at(index, scratch).number
}

/// The number of the entry at the index of the part: the counted operations are part 0, and the tables the next ones.
pub(crate) fn number_in<C: Rows, T: Rows + Drop>(
    counted: &C,
    tables: &[Arc<Held<T>>],
    part: usize,
    index: usize,
    scratch: &mut Scratch,
) -> u64
    requires part { part ≤ length tables.now }
    requires index { index < length (slice_index_or (walk_runs (C.rows counted.now) (tables_of tables.now)) part []) }
    ensures value { option_map (λ (entry : Entry). entry.number)
        (slice_get (slice_index_or (walk_runs (C.rows counted.now) (tables_of tables.now)) part []) index)
        ≡ Some result }
    ensures fits { index < 18446744073709551615 }
{
    if part == 0 {
        number_at(counted, index, scratch)
    } else {
        let table: &Held<T> = &tables[part - 1];
        number_at(table, index, scratch)
    }
}

// The key of the entry at the index of the part, if there is one.
fn key_in<C: Rows, T: Rows + Drop>(
    alloc: Global,
    counted: &C,
    tables: &[Arc<Held<T>>],
    part: usize,
    index: usize,
    scratch: &mut Scratch,
) -> Result<Option<Key>, AllocError>
    requires { part ≤ length tables.now }
    ensures { IfOk result (λ key. key ≡ option_map (λ (entry : Entry). entry.key)
        (slice_get (slice_index_or (walk_runs (C.rows counted.now) (tables_of tables.now)) part []) index)) }
{
    if part == 0 {
        key_at(alloc, counted, index, scratch)
    } else {
        let table: &Held<T> = &tables[part - 1];
        key_at(alloc, table, index, scratch)
    }
}

/// Puts the part among the heads, if it has an entry at the index.
pub(crate) fn put_next<C: Rows, T: Rows + Drop>(
    alloc: Global,
    counted: &C,
    tables: &[Arc<Held<T>>],
    part: usize,
    index: usize,
    heads: &mut Heads,
    scratch: &mut Scratch,
) -> Result<(), AllocError>
    requires { part ≤ length tables.now }
    ensures { OnOk result (IsPut
        (drop index (slice_index_or (walk_runs (C.rows counted.now) (tables_of tables.now)) part []))
        part heads.old heads.new) }
{
    let key = key_in(alloc, counted, tables, part, index, scratch)?;
    put(heads, key, part)?;
    Ok(())
}

/// The file of the part, if it is a table.
pub(crate) fn file_of<T: Rows + Drop>(tables: &[Arc<Held<T>>], part: usize) -> Option<u64>
    requires { part ≤ length tables.now }
    ensures { result ≡ file_of (tables_of tables.now) part }
{
    if part == 0 {
        return None;
    }
    let table: &Held<T> = &tables[part - 1];
    Some(table.file())
}
