use named_index::NamedIndex;
use st_base::Family;
use std::alloc::Global;
use std::test::Fail;

// An edit: the id of a family, a file.
#[derive(Clone, Copy)]
enum Row {
    Make(u32, &'static [u8]),
    Drop(u32),
    Table(u32, u64),
    NoTable(u32, u64),
    Flushed(u32),
    Log(u64),
    NoLog(u64),
}

// Whether the index takes a family of this name.
fn takes_family(alloc: Global, index: &mut NamedIndex, id: u32, name: &[u8]) -> Result<bool, Fail> {
    let name = Family::new(alloc, name)?;
    Ok(index.add_family(id, &name)?)
}

// Whether the index takes the edit of a row.
fn takes(alloc: Global, index: &mut NamedIndex, row: Row) -> Result<bool, Fail> {
    match row {
        Row::Make(id, name) => takes_family(alloc, index, id, name),
        Row::Drop(id) => Ok(index.drop_family(id)),
        Row::Table(family, file) => Ok(index.add_table(family, 0, file)?),
        Row::NoTable(family, file) => Ok(index.drop_table(family, file)),
        Row::Flushed(family) => Ok(index.set_flushed(family)),
        Row::Log(file) => Ok(index.add_log(file)?),
        Row::NoLog(file) => Ok(index.drop_log(file)),
    }
}

// How many of the edits are right up to the first that isn't.
fn right_edits(alloc: Global, index: &mut NamedIndex, rows: &[Row]) -> Result<usize, Fail> {
    for (right, row) in rows.iter().enumerate() {
        if !takes(alloc, index, *row)? {
            return Ok(right);
        }
    }
    Ok(rows.len())
}

// Edits of families, and how many are right up to the first that isn't.
static FAMILIES: [(&[Row], usize); 6] = [
    (&[Row::Make(0, b"f"), Row::Make(0, b"g")], 1),
    (&[Row::Make(0, b"f"), Row::Make(1, b"f")], 1),
    (&[Row::Make(0, b"f"), Row::Make(1, b"g")], 2),
    (&[Row::Make(0, b"f"), Row::Drop(0), Row::Make(0, b"f")], 3),
    (&[Row::Make(0, b"f"), Row::Drop(1)], 1),
    (&[Row::Make(0, b"f"), Row::Flushed(0), Row::Flushed(1)], 2),
];

// Edits of tables.
static TABLES: [(&[Row], usize); 6] = [
    (&[Row::Table(0, 5)], 0),
    (&[Row::Make(0, b"f"), Row::Table(0, 1)], 1),
    (
        &[
            Row::Make(0, b"f"),
            Row::Make(1, b"g"),
            Row::Table(0, 5),
            Row::Table(1, 5),
        ],
        3,
    ),
    (
        &[
            Row::Make(0, b"f"),
            Row::Make(1, b"g"),
            Row::Table(0, 5),
            Row::NoTable(1, 5),
        ],
        3,
    ),
    (
        &[
            Row::Make(0, b"f"),
            Row::Table(0, 5),
            Row::NoTable(0, 5),
            Row::Table(0, 5),
        ],
        4,
    ),
    // A family that comes back has none of the tables from before.
    (
        &[
            Row::Make(0, b"f"),
            Row::Table(0, 5),
            Row::Drop(0),
            Row::Make(0, b"f"),
            Row::NoTable(0, 5),
        ],
        4,
    ),
];

// Edits of logs.
static LOGS: [(&[Row], usize); 4] = [
    (&[Row::Log(1)], 0),
    (&[Row::Log(3), Row::Log(3)], 1),
    (&[Row::NoLog(3)], 0),
    (&[Row::Log(3), Row::NoLog(3), Row::Log(3)], 3),
];

// Whether so many of the edits of each row are right.
fn each_is_judged(alloc: Global, cases: &[(&[Row], usize)]) -> Result<bool, Fail> {
    for &(rows, want) in cases {
        let mut index = NamedIndex::new(alloc);
        if right_edits(alloc, &mut index, rows)? != want {
            return Ok(false);
        }
    }
    Ok(true)
}

#[test]
fn edits_of_families_are_judged(rt: HostRuntime) -> Result<(), Fail> {
    assert!(rt; each_is_judged(rt.alloc(), &FAMILIES)?);
    Ok(())
}

#[test]
fn edits_of_tables_are_judged(rt: HostRuntime) -> Result<(), Fail> {
    assert!(rt; each_is_judged(rt.alloc(), &TABLES)?);
    Ok(())
}

#[test]
fn edits_of_logs_are_judged(rt: HostRuntime) -> Result<(), Fail> {
    assert!(rt; each_is_judged(rt.alloc(), &LOGS)?);
    Ok(())
}
