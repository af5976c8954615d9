ghost use Rattle.std.specs.Prelude.{◌≡◌, true, IfOk, length};
ghost use Rattle.st_base.specs.Order.{in_order};
ghost use Rattle.st_order.specs.Columns.{Pairwise};
ghost use Rattle.st_order.specs.Sorted.{sorted};
ghost use Rattle.st_memtable.specs.Memtable.{DifferInPosition};
ghost use Rattle.st_memtable.specs.Runs.{values};

use crate::join::join;
use crate::run::RunEntries;
use st_base::Entry;
use std::alloc::{AllocError, Global};
use std::sync::Arc;

/// Copies of these entries in order: they are sorted by halves.
pub(crate) fn single(alloc: Global, entries: &[Entry]) -> Result<RunEntries, AllocError>
    requires { Pairwise DifferInPosition entries.now }
    ensures { IfOk result (λ run. values run ≡ sorted entries.now) }
{
    if entries.len() < 2 {
        let mut run = RunEntries::new(alloc);
        for entry in entries {
            run.push(Arc::new(alloc, entry.clone()?)?)?;
        }
        return Ok(run);
    }
    let (older, newer) = entries.split_at(entries.len() / 2);
    let front = single(alloc, older)?;
    let back = single(alloc, newer)?;
    join(alloc, front.as_slice(), back.as_slice())
}
