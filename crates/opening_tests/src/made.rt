ghost use Rattle.std.specs.Prelude.{◌≡◌, []};

use opening_checks::Counted;
use st_base::{Entries, Entry, Key, Levels, List, Mark};
use st_memtable::{Mem, Run};
use st_version::Held;
use std::alloc::{AllocError, Global};
use std::marker::Model;
use std::sync::Arc;

/// A key and a number.
pub type Row = (&'static [u8], u64);

/// A table: its level, its file and its rows, of which there are one or two, by numbers upwards.
pub type TableRow = (u8, u64, &'static [Row]);

/// A memtable with a number above those of all its entries.
#[derive(Drop)]
pub struct Numbered {
    alloc: Global,
    mem: Mem,
    next: u64,
}

impl Model for Numbered {
    ghost use Rattle.std.specs.Prelude.{◌<◌};
    ghost use Rattle.std.specs.List.{AllByRecursion};
    ghost use Rattle.st_memtable.specs.Memtable.{MemView};

    ghost Value = { MemView };

    ghost view = { λ numbered. numbered.mem };

    ghost invariant = { λ numbered. AllByRecursion (λ entry. entry.number < numbered.next) numbered.mem.entries };
}

impl Numbered {
    /// The empty one.
    pub fn new(alloc: Global) -> Numbered
        ensures { result.entries ≡ [] }
    {
        Numbered {
            alloc,
            mem: Mem::new(alloc),
            next: 0,
        }
    }

    /// With a tombstone of the key more, under this number; none where the number isn't above the others.
    pub fn put(&self, key: Key, number: u64) -> Result<Option<Numbered>, AllocError> {
        if number < self.next || number == u64::MAX {
            return Ok(None);
        }
        let mut entries = Entries::new(self.alloc);
        entries.push(Entry {
            key,
            number,
            mark: Mark::Gone,
        })?;
        let mem = self.mem.with(&entries)?;
        Ok(Some(Numbered {
            alloc: self.alloc,
            mem,
            next: number + 1,
        }))
    }

    /// Its first run, if it has entries; two entries stand in one run.
    pub fn run(&self) -> Result<Option<Run>, AllocError> {
        match self.mem.parts().first() {
            Some(run) => Ok(Some(run.clone()?)),
            None => Ok(None),
        }
    }
}

// With one entry more.
fn put(alloc: Global, numbered: &Numbered, row: Row) -> Result<Numbered, AllocError> {
    match Key::new(alloc, row.0) {
        Ok(key) => match numbered.put(key, row.1)? {
            Some(more) => Ok(more),
            None => Err(AllocError),
        },
        Err(_) => Err(AllocError),
    }
}

/// The run of these rows, if there are any.
pub fn run_of(alloc: Global, rows: &[Row]) -> Result<Option<Run>, AllocError> {
    let mut numbered = Numbered::new(alloc);
    for row in rows {
        numbered = put(alloc, &numbered, *row)?;
    }
    numbered.run()
}

/// The counted operations of these rows.
pub fn counted_of(alloc: Global, rows: &[Row]) -> Result<Counted<Run>, AllocError> {
    match run_of(alloc, rows)? {
        Some(run) => Ok(Counted::Run(run)),
        None => Ok(Counted::Nothing),
    }
}

/// The table of this row.
pub fn table_of(alloc: Global, row: TableRow) -> Result<Arc<Held<Run>>, AllocError> {
    match run_of(alloc, row.2)? {
        Some(run) => {
            let held = Held::new(alloc, row.1, 0, 0, run)?;
            Ok(Arc::new(alloc, held)?)
        }
        None => Err(AllocError),
    }
}

/// The tables of this level, in the order of the rows.
pub fn tables_at(
    alloc: Global,
    level: u8,
    rows: &[TableRow],
) -> Result<List<Arc<Held<Run>>>, AllocError> {
    let mut tables = List::new(alloc);
    for row in rows {
        if row.0 == level {
            tables.push(table_of(alloc, *row)?)?;
        }
    }
    Ok(tables)
}

// The level, shared.
fn level_of(
    alloc: Global,
    level: u8,
    rows: &[TableRow],
) -> Result<Arc<List<Arc<Held<Run>>>>, AllocError> {
    Ok(Arc::new(alloc, tables_at(alloc, level, rows)?)?)
}

/// The levels of these tables.
pub fn levels_of(alloc: Global, rows: &[TableRow]) -> Result<Levels<Arc<Held<Run>>>, AllocError> {
    Ok(Levels {
        zero: level_of(alloc, 0, rows)?,
        one: level_of(alloc, 1, rows)?,
        two: level_of(alloc, 2, rows)?,
        three: level_of(alloc, 3, rows)?,
        four: level_of(alloc, 4, rows)?,
        five: level_of(alloc, 5, rows)?,
        six: level_of(alloc, 6, rows)?,
    })
}
