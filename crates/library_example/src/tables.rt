//! A table in memory: made, opened and searched. A function answers None where a call that it makes refuses.
use sst_writer::SstFileWriter;
use st_base::{Bytes, Key, MarkRef, Scratch, Value};
use st_table::{Table, TableKind};
use std::alloc::Global;
use std::sync::Arc;

// Sets the key to the value.
fn put(alloc: Global, writer: &mut SstFileWriter, key: &[u8], value: &[u8]) -> Option<()> {
    let key = Key::new(alloc, key).ok()?;
    let value = Value::new(alloc, value).ok()?;
    writer.put(alloc, &key, &value).ok()
}

// Puts a tombstone of the key.
fn delete(alloc: Global, writer: &mut SstFileWriter, key: &[u8]) -> Option<()> {
    let key = Key::new(alloc, key).ok()?;
    writer.delete(alloc, &key).ok()
}

/// The bytes of a table of three entries, in rising order of their keys.
pub fn make_table(alloc: Global) -> Option<Bytes> {
    let mut writer = SstFileWriter::new(alloc).ok()?;
    put(alloc, &mut writer, b"apple", b"1")?;
    delete(alloc, &mut writer, b"banana")?;
    put(alloc, &mut writer, b"cherry", b"red and sweet")?;
    writer.finish(alloc).ok()
}

/// The table that these bytes are: None where they are none.
pub fn open_table(alloc: Global, bytes: Bytes) -> Option<Table> {
    let bytes = Arc::new(alloc, bytes).ok()?;
    Table::open(alloc, bytes, TableKind::External, 0).ok()
}

/// What the key is set to: None where the table has no entry of it, or a tombstone.
pub fn value_in<'a>(table: &'a Table, key: &[u8], scratch: &mut Scratch) -> Option<&'a [u8]> {
    match table.find(key, u64::MAX, scratch) {
        Some((_number, MarkRef::Put(value))) => Some(value),
        _ => None,
    }
}
