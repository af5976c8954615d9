ghost use Rattle.std.specs.Prelude.{◌≡◌, ℕ, List, IfOk, map};
ghost use Rattle.st_order.specs.Columns.{FallStrictly, column};
ghost use Rattle.st_order.specs.Sorted.{joined};
ghost use Rattle.job_model.specs.Compaction.{IsCompaction, cut_tables};
ghost use Rattle.job_model.specs.Drops.{AreApart, DontFall};

use crate::keeper::Keeper;
use st_base::{Entries, KeyRange, Rows, Scratch};
use st_merge::{Merge, entry_at};
use std::alloc::{AllocError, Global};

/// What is kept of the inputs, in tables that are cut by the target: a table is closed before the first entry of another key
/// once its charges have reached `target` (bytes). `live` has the numbers at which reads must stay as they are, rising; a
/// tombstone goes where it is the oldest kept entry of its key and its key lies in one of the ranges `drops`, which stand by
/// key. Along the inputs the numbers of each key are to fall.
///
/// The work is that of the merge, and for each entry one search by halves in the live numbers or the ranges. Memory holds the
/// kept entries once.
pub fn compact<T: Rows>(
    alloc: Global,
    inputs: &[T],
    live: &[u64],
    drops: &[KeyRange],
    target: u64,
) -> Result<Vec<Entries>, AllocError>
    requires falls { (key : List ℕ) → FallStrictly (column key (map T.rows inputs.now)) }
    requires live { DontFall live.now }
    requires drops { AreApart drops.now }
    ensures kept { IfOk result (λ tables.
        IsCompaction (map T.rows inputs.now) live.now drops.now (joined tables.items)) }
    ensures cut { IfOk result (λ tables. tables.items ≡ cut_tables target (joined tables.items)) }
{
    let mut merge = Merge::new(alloc, inputs)?;
    let mut scratch = Scratch::new(alloc)?;
    let mut keeper = Keeper::new(alloc, live, drops, target);
    while let Some(entry_index) = merge.next() {
        keeper.take(entry_at(inputs, entry_index, &mut scratch))?;
    }
    keeper.finish()
}
