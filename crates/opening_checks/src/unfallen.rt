ghost use Rattle.std.specs.Prelude.{◌≡◌, ◌++◌, ◌∷◌, [], true, IfOk, OnOk, length, map, replicate, take};
ghost use Rattle.std.specs.List.{AllByRecursion};
ghost use Rattle.st_base.specs.Levels.{levels_of};
ghost use Rattle.st_base.specs.Order.{in_order};
ghost use Rattle.core_model.specs.Picture.{tables_in};
ghost use Rattle.store_image.specs.Opens.{OpenedImageFamily, least_file, unfallen_in};
ghost use Rattle.st_version.specs.Held.{tables_of};
ghost use Rattle.opening_checks.specs.Heads.{AreHeads};
ghost use Rattle.opening_checks.specs.Walk.{IsFamily, IsLeastAlong, walk_runs};

use crate::heads::{Heads, no_heads, take};
use crate::meeting::know_tables;
use crate::passed::Passed;
use crate::walk::{file_of, number_in, put_next};
use st_base::{Levels, Rows, Scratch};
use st_version::Held;
use std::alloc::{AllocError, Global};
use std::sync::Arc;

// Reads nothing: what is known of the parts, from their types.
fn know_parts<C: Rows, T: Rows + Drop>(counted: &C, tables: &[Arc<Held<T>>])
    ensures { AllByRecursion (λ run. in_order run ≡ true) (walk_runs (C.rows counted.now) (tables_of tables.now)) }
{
    let _count = counted.len();
    know_tables(tables);
}

// The first index of each part.
fn first_indexes<T: Rows + Drop>(
    alloc: Global,
    tables: &[Arc<Held<T>>],
) -> Result<Vec<usize>, AllocError>
    ensures { IfOk result (λ indexes. indexes.items ≡ replicate (length tables.now) 0 ++ 0 ∷ []) }
{
    let mut indexes = Vec::new(alloc);
    for _table in tables {
        indexes.push(0)?;
    }
    indexes.push(0)?;
    Ok(indexes)
}

// The heads of all parts.
fn first_heads<C: Rows, T: Rows + Drop>(
    alloc: Global,
    counted: &C,
    tables: &[Arc<Held<T>>],
    scratch: &mut Scratch,
) -> Result<Heads, AllocError>
    ensures { IfOk result (λ heads. AreHeads (walk_runs (C.rows counted.now) (tables_of tables.now)) heads) }
{
    let mut heads = no_heads(alloc);
    put_next(alloc, counted, tables, 0, 0, &mut heads, scratch)?;
    for index in 0..tables.len() {
        put_next(alloc, counted, tables, index + 1, 0, &mut heads, scratch)?;
    }
    Ok(heads)
}

// The least file to blame along the parts, taken by key and at one key in their order; parts above `upper` stand in the
// last level.
fn least_along<C: Rows, T: Rows + Drop>(
    alloc: Global,
    last: u64,
    counted: &C,
    tables: &[Arc<Held<T>>],
    upper: usize,
) -> Result<Option<u64>, AllocError>
    ensures { IfOk result (λ least.
        IsLeastAlong last upper (C.rows counted.now) (tables_of tables.now) least) }
{
    know_parts(counted, tables);
    let mut scratch = Scratch::new(alloc)?;
    let mut indexes = first_indexes(alloc, tables)?;
    let mut heads = first_heads(alloc, counted, tables, &mut scratch)?;
    let mut passed = Passed::new();
    while let Some(head) = take(&mut heads) {
        let part = head.1;
        let index = indexes[part];
        let number = number_in(counted, tables, part, index, &mut scratch);
        passed.pass(last, upper < part, file_of(tables, part), head.0, number);
        indexes[part] = index + 1;
        put_next(
            alloc,
            counted,
            tables,
            part,
            index + 1,
            &mut heads,
            &mut scratch,
        )?;
    }
    Ok(passed.least)
}

// Puts these tables at the end.
fn push_tables<T: Rows + Drop>(
    list: &mut Vec<Arc<Held<T>>>,
    tables: &[Arc<Held<T>>],
) -> Result<(), AllocError>
    ensures { OnOk result (tables_of list.new.items ≡ tables_of list.old.items ++ tables_of tables.now) }
{
    for table in tables {
        list.push(table.clone()?)?;
    }
    Ok(())
}

// The tables above the last level, in the order of the walk.
fn upper_tables<T: Rows + Drop>(
    alloc: Global,
    levels: &Levels<Arc<Held<T>>>,
) -> Result<Vec<Arc<Held<T>>>, AllocError>
    ensures { IfOk result (λ tables. tables_of tables.items
        ≡ tables_in (take 6 (map tables_of (levels_of levels.now)))) }
{
    let mut tables = Vec::new(alloc);
    let mut level = 0;
    while level < 6 {
        push_tables(&mut tables, levels.at(level))?;
        level += 1;
    }
    Ok(tables)
}

/// The least file number of a table that has an entry above the last number, or one whose number doesn't fall below that of
/// an entry of its key before it on the walk (counted operations, level 0 from the newest, levels 1 to 6): None exactly where
/// there is none. In level 6 an entry of number 0 may stand below one of number 0. The counted operations stand in entry
/// order.
///
/// The walk is taken by keys, with a heap of the parts: the logarithm of the number of tables for each entry. Memory holds
/// one key for each table.
pub fn least_unfallen<C: Rows, T: Rows + Drop>(
    alloc: Global,
    last: u64,
    counted: &C,
    levels: &Levels<Arc<Held<T>>>,
) -> Result<Option<u64>, AllocError>
    ensures { (family : OpenedImageFamily)
        → IsFamily (C.rows counted.now) (map tables_of (levels_of levels.now)) family
        → IfOk result (λ least. least ≡ least_file (unfallen_in last family)) }
{
    let mut tables = upper_tables(alloc, levels)?;
    let upper = tables.as_slice().len();
    push_tables(&mut tables, levels.at(6))?;
    let least = least_along(alloc, last, counted, tables.as_slice(), upper)?;
    Ok(least)
}
