ghost use Rattle.std.specs.Prelude.{◌≡◌};

use st_base::{Entries, Entry, Key, Mark, Value};
use st_memtable::{Mem, Run};
use std::alloc::{AllocError, Global};
use std::marker::Model;

/// A memtable with a number that none of its entries passes.
#[derive(Drop)]
pub struct Filling {
    mem: Mem,
    last: u64,
}

impl Model for Filling {
    ghost use Rattle.std.specs.Prelude.{◌≤◌};
    ghost use Rattle.std.specs.List.{AllByRecursion};
    ghost use Rattle.st_memtable.specs.Memtable.{MemView};

    ghost Value = { MemView };

    ghost view = { λ writer. writer.mem };

    ghost invariant = { λ writer. AllByRecursion (λ entry. entry.number ≤ writer.last) writer.mem.entries };
}

impl Filling {
    /// The empty one.
    pub fn new(alloc: Global) -> Filling {
        Filling {
            mem: Mem::new(alloc),
            last: 0,
        }
    }

    /// The memtable.
    pub fn into_mem(self) -> Mem {
        self.mem
    }

    /// With an entry of the key more, under the next number; none after the greatest number.
    pub fn put(&self, alloc: Global, key: Key, mark: Mark) -> Result<Option<Filling>, AllocError> {
        if self.last == u64::MAX {
            return Ok(None);
        }
        let number = self.last + 1;
        let mut entries = Entries::new(alloc);
        entries.push(Entry { key, number, mark })?;
        let mem = self.mem.with(&entries)?;
        Ok(Some(Filling { mem, last: number }))
    }
}

/// The key of a number: its eight bytes, the high one first.
pub fn key(alloc: Global, number: u64) -> Result<Key, AllocError> {
    match Key::new(alloc, &number.to_be_bytes()) {
        Ok(key) => Ok(key),
        Err(_) => Err(AllocError),
    }
}

// A value of 64 bytes.
fn mark(alloc: Global) -> Result<Mark, AllocError> {
    match Value::new(alloc, &[7; 64]) {
        Ok(value) => Ok(Mark::Put(value)),
        Err(_) => Err(AllocError),
    }
}

// With the key of the number too.
fn put(alloc: Global, writer: &Filling, number: u64) -> Result<Filling, AllocError> {
    match writer.put(alloc, key(alloc, number)?, mark(alloc)?)? {
        Some(more) => Ok(more),
        None => Err(AllocError),
    }
}

/// A number that looks like any other below the count, which isn't 0.
pub fn shuffled(index: u64, count: u64) -> u64 {
    index.wrapping_mul(0x9e37_79b9_7f4a_7c15) % count.max(1)
}

/// So many keys, one call each: from the first number on, in steps.
pub fn written(alloc: Global, first: u64, step: u64, count: u64) -> Result<Mem, AllocError> {
    let mut writer = Filling::new(alloc);
    for index in 0..count {
        writer = put(alloc, &writer, first.wrapping_add(index.wrapping_mul(step)))?;
    }
    Ok(writer.into_mem())
}

/// So many keys below the count, one call each, in no order.
pub fn written_anyhow(alloc: Global, count: u64) -> Result<Mem, AllocError> {
    let mut writer = Filling::new(alloc);
    for index in 0..count {
        writer = put(alloc, &writer, shuffled(index, count))?;
    }
    Ok(writer.into_mem())
}

/// The memtable's entries as one run.
pub fn settled(mem: &Mem) -> Result<Run, AllocError> {
    let whole = mem.settled()?;
    match whole.parts() {
        [run] => Ok(run.clone()?),
        _ => Err(AllocError),
    }
}
