ghost use Rattle.std.specs.Prelude.{◌≡◌, ◌≤◌, ◌∷◌, [], IfOk, length, map, find, nat_lt, option_map};
ghost use Rattle.st_base.specs.declared.running.Ranged.{Ranged as Table};
ghost use Rattle.job_model.specs.Pick.{charges, is_over_of, pick_in};
ghost use Rattle.st_pick.specs.Picked.{is_free_of_jobs, itself, picked_of, picked_tables, tables_of_levels, with_meeting};

use crate::free::is_free;
use crate::joining::{alone, copies, joint_range, with_meeting};
use crate::picked::Picked;
use st_base::{LevelRanges, List, Ranged, Running};
use std::alloc::{AllocError, Global};

// Whether the charges of the tables pass the bound.
fn pass(tables: &[Ranged], most: u64) -> bool
    ensures { result ≡ nat_lt most (charges itself tables.now) }
{
    let mut room = most;
    for table in tables {
        if room < table.charge {
            return true;
        }
        room -= table.charge;
    }
    false
}

// Whether the level is over.
fn is_over(level: u8, tables: &[Ranged]) -> bool
    requires { level ≤ 3 }
    ensures { result ≡ is_over_of itself level tables.now }
{
    match level {
        0 => tables.len() >= 4,
        1 => pass(tables, 16_777_216),
        2 => pass(tables, 134_217_728),
        _ => pass(tables, 1_073_741_824),
    }
}

// The inputs of the first free job that takes one of the tables, and those of the next level that meet it.
fn first_free(
    alloc: Global,
    running: &[Running],
    lowest: u8,
    level: u8,
    tables: &[Ranged],
    next: &[Ranged],
) -> Result<Option<List<Ranged>>, AllocError>
    ensures { IfOk result (λ found. found ≡ find (is_free_of_jobs running.now lowest level)
        (map (λ (table : Table). with_meeting (table ∷ []) next.now) tables.now)) }
{
    for table in tables {
        let inputs = with_meeting(alloc, alone(alloc, table)?, next)?;
        if is_free(alloc, running, lowest, level, inputs.as_slice())? {
            return Ok(Some(inputs));
        }
    }
    Ok(None)
}

// The inputs of the job that takes all tables of level 0, and those of level 1 that meet them, if it is free.
fn all_free(
    alloc: Global,
    running: &[Running],
    lowest: u8,
    tables: &[Ranged],
    next: &[Ranged],
) -> Result<Option<List<Ranged>>, AllocError>
    ensures { IfOk result (λ found. found
        ≡ find (is_free_of_jobs running.now lowest 1) (with_meeting tables.now next.now ∷ [])) }
{
    let inputs = with_meeting(alloc, copies(alloc, tables)?, next)?;
    if is_free(alloc, running, lowest, 1, inputs.as_slice())? {
        Ok(Some(inputs))
    } else {
        Ok(None)
    }
}

// The inputs of the first free job of a level that is over.
fn pick_at(
    alloc: Global,
    levels: &[LevelRanges],
    running: &[Running],
    lowest: u8,
    level: u8,
) -> Result<Option<List<Ranged>>, AllocError>
    requires levels { length levels.now ≡ 7 }
    requires level { level ≤ 3 }
    ensures { IfOk result (λ found. found ≡ pick_in itself running.now lowest (tables_of_levels levels.now) level) }
{
    let tables = levels[usize::from(level)].tables.as_slice();
    if !is_over(level, tables) {
        return Ok(None);
    }
    let next = levels[usize::from(level) + 1].tables.as_slice();
    if level == 0 {
        all_free(alloc, running, lowest, tables, next)
    } else {
        first_free(alloc, running, lowest, level + 1, tables, next)
    }
}

// What a job of these inputs and this output level takes.
fn handed_out(alloc: Global, level: u8, inputs: &[Ranged]) -> Result<Picked, AllocError>
    ensures { IfOk result (λ picked. picked ≡ picked_of (level, inputs.now)) }
{
    let mut files = List::new(alloc);
    for table in inputs {
        files.push(table.file)?;
    }
    let range = joint_range(alloc, inputs)?;
    Ok(Picked {
        inputs: files,
        level,
        range,
    })
}

/// The first free job of the first level, from level 0 on, that is over and has one: None exactly where no level that is over
/// has a free job. There are seven lists, for levels 0 to 6, each in the order of a read: level 0 from the newest table on,
/// the others by key. `lowest` is the lowest level of the store for files that aren't behind.
///
/// For each job that is tried the ranges of its tables are copied, and the next level and the running jobs are looked at once.
pub fn pick(
    alloc: Global,
    levels: &[LevelRanges],
    running: &[Running],
    lowest: u8,
) -> Result<Option<Picked>, AllocError>
    requires { length levels.now ≡ 7 }
    ensures { IfOk result (λ answer. answer ≡ option_map picked_of (picked_tables running.now lowest levels.now)) }
{
    for level in 0..4 {
        if let Some(inputs) = pick_at(alloc, levels, running, lowest, level)? {
            return Ok(Some(handed_out(alloc, level + 1, inputs.as_slice())?));
        }
    }
    Ok(None)
}
