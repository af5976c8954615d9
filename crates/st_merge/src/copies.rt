ghost use Rattle.std.specs.Prelude.{◌≡◌, ◌≤◌, IfOk, length};
ghost use Rattle.st_base.specs.Rows.{Fits, FitsMark, entry_of, mark_of};

use st_base::{Entry, EntryRef, KEY_BYTES, Key, MakeFault, Mark, MarkRef, VALUE_BYTES, Value};
use std::alloc::{AllocError, Global};

/// The key of these bytes, of which there are few enough.
pub(crate) fn key_of(alloc: Global, bytes: &[u8]) -> Result<Key, AllocError>
    requires { length bytes.now ≤ KEY_BYTES }
    ensures { IfOk result (λ key. key ≡ bytes.now) }
{
    match Key::new(alloc, bytes) {
        Ok(key) => Ok(key),
        Err(MakeFault::OutOfMemory) => Err(AllocError),
        Err(MakeFault::Limit) => unreachable!(),
    }
}

/// The value of these bytes, of which there are few enough.
pub(crate) fn value_of(alloc: Global, bytes: &[u8]) -> Result<Value, AllocError>
    requires { length bytes.now ≤ VALUE_BYTES }
    ensures { IfOk result (λ value. value ≡ bytes.now) }
{
    match Value::new(alloc, bytes) {
        Ok(value) => Ok(value),
        Err(MakeFault::OutOfMemory) => Err(AllocError),
        Err(MakeFault::Limit) => unreachable!(),
    }
}

// The mark, where it lies in memory of its own.
fn owned_mark(alloc: Global, mark: MarkRef<'_>) -> Result<Mark, AllocError>
    requires { FitsMark (mark_of mark) }
    ensures { IfOk result (λ owned. owned ≡ mark_of mark.entry) }
{
    match mark {
        MarkRef::Put(bytes) => Ok(Mark::Put(value_of(alloc, bytes)?)),
        MarkRef::Gone => Ok(Mark::Gone),
    }
}

/// A copy of the entry in memory of its own, as an entry that was read lies in a part or in a scratch.
pub fn owned(alloc: Global, entry: EntryRef<'_>) -> Result<Entry, AllocError>
    requires { Fits (entry_of entry) }
    ensures { IfOk result (λ owned. owned ≡ entry_of entry.entry) }
{
    Ok(Entry {
        key: key_of(alloc, entry.key)?,
        number: entry.number,
        mark: owned_mark(alloc, entry.mark)?,
    })
}
