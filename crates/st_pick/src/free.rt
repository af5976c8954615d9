ghost use Rattle.std.specs.Prelude.{◌≡◌, ◌==◌, ◌&&◌, IfOk};
ghost use Rattle.std.specs.List.{list_any};
ghost use Rattle.st_base.specs.declared.running.Running.{Running as Job};
ghost use Rattle.st_base.specs.declared.running.Ranged.{Ranged as Table};
ghost use Rattle.st_base.specs.Range.{meet};
ghost use Rattle.job_model.specs.Pick.{takes};
ghost use Rattle.st_pick.specs.Picked.{is_free_of_jobs};

use crate::joining::{joint_range, meets};
use st_base::{KeyRange, Ranged, Running};
use std::alloc::{AllocError, Global};

// Whether a running job has this output level.
fn is_made(running: &[Running], level: u8) -> bool
    ensures { result ≡ list_any (λ (job : Job). job.level == level) running.now }
{
    running.iter().any(|job| job.level == level)
}

// Whether the job takes the file.
fn takes(job: &Running, file: u64) -> bool
    ensures { result ≡ takes file job.now }
{
    job.inputs.as_slice().iter().any(|input| *input == file)
}

// Whether a running job takes the file.
fn is_taken(running: &[Running], file: u64) -> bool
    ensures { result ≡ list_any (takes file) running.now }
{
    running.iter().any(|job| takes(job, file))
}

// Whether a running job takes one of the tables.
fn are_taken(running: &[Running], tables: &[Ranged]) -> bool
    ensures { result ≡ list_any (λ (table : Table). list_any (takes table.file) running.now) tables.now }
{
    tables.iter().any(|table| is_taken(running, table.file))
}

// Whether the job's outputs will stand at the level and may meet the range.
fn stands_in(job: &Running, level: u8, range: &KeyRange) -> bool
    ensures { result ≡ (job.now.level == level && meet job.now.range range.now) }
{
    job.level == level && meets(&job.range, range)
}

// Whether those of a running job will.
fn stand_in(running: &[Running], level: u8, range: &KeyRange) -> bool
    ensures { result ≡ list_any (λ (job : Job). job.level == level && meet job.range range.now) running.now }
{
    running.iter().any(|job| stands_in(job, level, range))
}

/// Whether a job of these inputs and this output level is free.
pub(crate) fn is_free(
    alloc: Global,
    running: &[Running],
    lowest: u8,
    level: u8,
    inputs: &[Ranged],
) -> Result<bool, AllocError>
    ensures { IfOk result (λ free. free ≡ is_free_of_jobs running.now lowest level inputs.now) }
{
    if is_made(running, lowest) || are_taken(running, inputs) {
        return Ok(false);
    }
    let range = joint_range(alloc, inputs)?;
    Ok(!stand_in(running, level, &range))
}
