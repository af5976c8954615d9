use crate::writer::{key, settled, shuffled, written};
use st_base::Scratch;
use st_memtable::Run;
use st_version::{FamilyView, Held};
use std::alloc::{AllocError, Global};
use std::sync::Arc;

/// How many entries each table and each memtable has, and below which number their keys are.
#[derive(Clone, Copy)]
pub struct Sizes {
    pub table: u64,
    pub mem: u64,
    pub range: u64,
}

/// A family of the benchmark.
pub type View = FamilyView<Run>;

// A table of so many keys.
fn table(
    alloc: Global,
    file: u64,
    first: u64,
    step: u64,
    count: u64,
) -> Result<Arc<Held<Run>>, AllocError> {
    let run = settled(&written(alloc, first, step, count)?)?;
    Ok(Arc::new(alloc, Held::new(alloc, file, 0, 0, run)?)?)
}

// The family with this table at a level, if it fits there.
fn with_table(
    alloc: Global,
    view: &View,
    level: u8,
    table: Arc<Held<Run>>,
) -> Result<View, AllocError> {
    if level > 6 {
        return Err(AllocError);
    }
    let tables = [table];
    if view.fits(alloc, &[], level, &tables)? {
        view.replace(alloc, &[], level, &tables)
    } else {
        Err(AllocError)
    }
}

// The family with tables of so many keys side by side at a level, under file numbers from this one on.
fn with_level(
    alloc: Global,
    view: View,
    sizes: Sizes,
    level: u8,
    file: u64,
    tables: u64,
) -> Result<View, AllocError> {
    let mut view = view;
    let span = sizes.range.wrapping_div(tables.max(1));
    let step = span.wrapping_div(sizes.table.max(1)).max(1);
    for index in 0..tables {
        let number = file.wrapping_add(index);
        let table = table(alloc, number, index.wrapping_mul(span), step, sizes.table)?;
        view = with_table(alloc, &view, level, table)?;
    }
    Ok(view)
}

// The family with tables over all keys in level 0.
fn with_newest(alloc: Global, view: View, sizes: Sizes, tables: u64) -> Result<View, AllocError> {
    let mut view = view;
    let step = sizes.range.wrapping_div(sizes.table.max(1)).max(1);
    for index in 0..tables {
        let table = table(alloc, index, index, step, sizes.table)?;
        view = with_table(alloc, &view, 0, table)?;
    }
    Ok(view)
}

// The family with memtables over all keys, all but the last sealed.
fn with_memtables(
    alloc: Global,
    view: View,
    sizes: Sizes,
    memtables: u64,
) -> Result<View, AllocError> {
    let mut view = view;
    let step = sizes.range.wrapping_div(sizes.mem.max(1)).max(1);
    for index in 0..memtables {
        if index > 0 {
            view = view.with_sealed(alloc)?;
        }
        let mem = written(alloc, index, step, sizes.mem)?;
        view = view.with_mem(alloc, Arc::new(alloc, mem)?)?;
    }
    Ok(view)
}

/// A family of 4 memtables and 20 tables: 4 in level 0, 6 in level 1, 10 in level 2.
pub fn view_of(alloc: Global, sizes: Sizes) -> Result<View, AllocError> {
    let view = FamilyView::new(alloc, 0)?;
    let view = with_level(alloc, view, sizes, 2, 100, 10)?;
    let view = with_level(alloc, view, sizes, 1, 50, 6)?;
    let view = with_newest(alloc, view, sizes, 4)?;
    with_memtables(alloc, view, sizes, 4)
}

/// A family of 10 tables in level 0 alone.
pub fn long_view(alloc: Global, sizes: Sizes) -> Result<View, AllocError> {
    let view = FamilyView::new(alloc, 0)?;
    with_newest(alloc, view, sizes, 10)
}

/// How many of so many keys are found.
pub fn find_all(alloc: Global, view: &View, sizes: Sizes, count: u64) -> Result<u64, AllocError> {
    let mut scratch = Scratch::new(alloc)?;
    let mut found = 0u64;
    for index in 0..count {
        let bytes = shuffled(index, sizes.range).to_be_bytes();
        if view.find(&bytes, u64::MAX, &mut scratch).is_some() {
            found = found.wrapping_add(1);
        }
    }
    Ok(found)
}

/// How many pairs so many scans give, each over so many keys, up to the limit.
pub fn scan_all(
    alloc: Global,
    view: &View,
    sizes: Sizes,
    count: u64,
    keys: u64,
    limit: usize,
) -> Result<u64, AllocError> {
    let mut pairs = 0u64;
    for index in 0..count {
        let first = shuffled(index, sizes.range);
        let low = key(alloc, first)?;
        let high = key(alloc, first.wrapping_add(keys))?;
        let found = view.scan(alloc, &low, &high, u64::MAX, limit)?;
        pairs = pairs.wrapping_add(found.len() as u64);
    }
    Ok(pairs)
}
