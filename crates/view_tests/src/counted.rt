ghost use Rattle.std.specs.Prelude.{◌≡◌, []};

use st_base::{Entries, Entry, Key, Mark, Value};
use st_memtable::Mem;
use std::alloc::{AllocError, Global};
use std::marker::Model;

/// A memtable with a number that none of its entries passes.
#[derive(Drop)]
pub struct Counted {
    alloc: Global,
    mem: Mem,
    last: u64,
}

impl Model for Counted {
    ghost use Rattle.std.specs.Prelude.{◌≤◌};
    ghost use Rattle.std.specs.List.{AllByRecursion};
    ghost use Rattle.st_memtable.specs.Memtable.{MemView};

    ghost Value = { MemView };

    ghost view = { λ counted. counted.mem };

    ghost invariant = { λ counted. AllByRecursion (λ entry. entry.number ≤ counted.last) counted.mem.entries };
}

impl Counted {
    /// The empty one, whose first entry has the number after this one.
    pub fn behind(alloc: Global, last: u64) -> Counted
        ensures { result.entries ≡ [] }
    {
        Counted {
            alloc,
            mem: Mem::new(alloc),
            last,
        }
    }

    /// The empty one, whose first entry has the number 1.
    pub fn new(alloc: Global) -> Counted
        ensures { result.entries ≡ [] }
    {
        Counted::behind(alloc, 0)
    }

    /// The memtable.
    pub fn mem(&self) -> &Mem
        ensures { result.now ≡ self.now }
    {
        &self.mem
    }

    /// The memtable, by itself.
    pub fn into_mem(self) -> Mem
        ensures { result ≡ self }
    {
        self.mem
    }

    /// With an entry of the key more, under the next number; none after the greatest number.
    pub fn put(&self, key: Key, mark: Mark) -> Result<Option<Counted>, AllocError> {
        if self.last == u64::MAX {
            return Ok(None);
        }
        let number = self.last + 1;
        let mut entries = Entries::new(self.alloc);
        entries.push(Entry { key, number, mark })?;
        let mem = self.mem.with(&entries)?;
        Ok(Some(Counted {
            alloc: self.alloc,
            mem,
            last: number,
        }))
    }
}

/// The key of these bytes.
pub fn key(alloc: Global, bytes: &[u8]) -> Result<Key, AllocError> {
    match Key::new(alloc, bytes) {
        Ok(key) => Ok(key),
        Err(_) => Err(AllocError),
    }
}

// The value of these bytes, or a tombstone where there are none.
fn mark(alloc: Global, value: &[u8]) -> Result<Mark, AllocError> {
    if value.is_empty() {
        return Ok(Mark::Gone);
    }
    match Value::new(alloc, value) {
        Ok(value) => Ok(Mark::Put(value)),
        Err(_) => Err(AllocError),
    }
}

/// With one entry more: a tombstone where the value has no bytes.
pub fn put(
    alloc: Global,
    counted: &Counted,
    name: &[u8],
    value: &[u8],
) -> Result<Counted, AllocError> {
    match counted.put(key(alloc, name)?, mark(alloc, value)?)? {
        Some(more) => Ok(more),
        None => Err(AllocError),
    }
}

/// The memtable of these keys and values, numbered from the one after this.
pub fn filled_behind(
    alloc: Global,
    last: u64,
    pairs: &[(&[u8], &[u8])],
) -> Result<Counted, AllocError> {
    let mut counted = Counted::behind(alloc, last);
    for pair in pairs.iter() {
        counted = put(alloc, &counted, pair.0, pair.1)?;
    }
    Ok(counted)
}

/// The memtable of the first of these keys and values, numbered from 1.
pub fn filled(
    alloc: Global,
    pairs: &[(&[u8], &[u8])],
    count: usize,
) -> Result<Counted, AllocError> {
    let mut counted = Counted::new(alloc);
    for pair in pairs.iter().take(count) {
        counted = put(alloc, &counted, pair.0, pair.1)?;
    }
    Ok(counted)
}
