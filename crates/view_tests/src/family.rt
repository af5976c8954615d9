use crate::counted::filled_behind;
use st_memtable::{Mem, Run};
use st_version::{FamilyView, Held};
use std::alloc::{AllocError, Global};
use std::sync::Arc;

/// A family whose tables are runs of memtables.
pub type View = FamilyView<Run>;

/// A table in place.
pub type Table = Arc<Held<Run>>;

/// Keys with their values; no bytes are a tombstone.
pub type Pairs = &'static [(&'static [u8], &'static [u8])];

/// A table: its file, its level, the number before its first entry's, and its keys and values.
pub type Placed = (u64, u8, u64, Pairs);

/// A memtable: the number before its first entry's, and its keys and values.
pub type Written = (u64, Pairs);

/// Tables from the oldest on: two side by side in level 2, one in level 1, two in level 0.
pub static TABLES: [Placed; 5] = [
    (1, 2, 0, &[(b"a", b"1"), (b"b", b"2"), (b"c", b"3")]),
    (2, 2, 3, &[(b"e", b"4"), (b"f", b"5"), (b"g", b"6")]),
    (3, 1, 6, &[(b"c", b"7"), (b"d", b"8"), (b"e", b"")]),
    (4, 0, 9, &[(b"a", b"10"), (b"c", b"11")]),
    (5, 0, 11, &[(b"a", b"12")]),
];

// Memtables over them, from the oldest on.
static MEMTABLES: [Written; 3] = [
    (12, &[(b"b", b"13"), (b"g", b"")]),
    (14, &[(b"b", b"15")]),
    (15, &[(b"h", b"16")]),
];

/// The memtable of the row.
pub fn memtable(alloc: Global, case: &Written) -> Result<Arc<Mem>, AllocError> {
    let counted = filled_behind(alloc, case.0, case.1)?;
    Ok(Arc::new(alloc, counted.into_mem())?)
}

// The one run of the settled memtable.
fn run_of(mem: &Mem) -> Result<Run, AllocError> {
    match mem.parts() {
        [run] => Ok(run.clone()?),
        _ => Err(AllocError),
    }
}

// The run of these pairs, numbered from the one after this.
fn run(alloc: Global, last: u64, pairs: Pairs) -> Result<Run, AllocError> {
    let settled = filled_behind(alloc, last, pairs)?.mem().settled()?;
    run_of(&settled)
}

/// The table of the row, whose file has 1,000 bytes and whose entries act under their own numbers.
pub fn table(alloc: Global, case: &Placed) -> Result<Table, AllocError> {
    let run = run(alloc, case.2, case.3)?;
    let held = Held::new(alloc, case.0, 1000, 0, run)?;
    Ok(Arc::new(alloc, held)?)
}

// The family without these files and with the tables at the level, if they fit there.
fn replaced(
    alloc: Global,
    view: &View,
    inputs: &[u64],
    level: u8,
    outputs: &[Table],
) -> Result<View, AllocError> {
    if level > 6 {
        return Err(AllocError);
    }
    if view.fits(alloc, inputs, level, outputs)? {
        view.replace(alloc, inputs, level, outputs)
    } else {
        Err(AllocError)
    }
}

/// The family without these files and with the table of the row at its level, if it fits there.
pub fn placed(
    alloc: Global,
    view: &View,
    inputs: &[u64],
    case: &Placed,
) -> Result<View, AllocError> {
    let outputs = [table(alloc, case)?];
    replaced(alloc, view, inputs, case.1, &outputs)
}

// The family with the tables in place.
fn with_tables(alloc: Global) -> Result<View, AllocError> {
    let mut view = FamilyView::new(alloc, 7)?;
    for case in TABLES.iter() {
        view = placed(alloc, &view, &[], case)?;
    }
    Ok(view)
}

// The family with the memtable of the row; the one before is sealed, unless it is empty.
fn with_memtable(alloc: Global, view: &View, case: &Written) -> Result<View, AllocError> {
    let mem = memtable(alloc, case)?;
    if view.mem().runs() == 0 {
        return view.with_mem(alloc, mem);
    }
    let sealed = view.with_sealed(alloc)?;
    sealed.with_mem(alloc, mem)
}

/// The family with the tables, and the memtables over them, all but the last sealed.
pub fn whole(alloc: Global) -> Result<View, AllocError> {
    let mut view = with_tables(alloc)?;
    for case in MEMTABLES.iter() {
        view = with_memtable(alloc, &view, case)?;
    }
    Ok(view)
}
