ghost use Rattle.std.specs.Prelude.{◌≡◌, ◌++◌, IfOk, OnOk, map};
ghost use Rattle.std.specs.List.{AllByRecursion};
ghost use Rattle.st_order.specs.Sorted.{merged};
ghost use Rattle.st_version.specs.Held.{runs_of_memtables, tables_of};
ghost use Rattle.st_version.specs.Run.{entries_of_run};
ghost use Rattle.core_model.specs.Picture.{runs_of, tables_in};
ghost use Rattle.st_base.specs.Levels.{levels_of};

use crate::held::Held;
use crate::run::Run;
use st_base::{Levels, Rows};
use st_memtable::Mem;
use std::alloc::AllocError;
use std::sync::Arc;

// Puts these runs of a memtable at the end.
fn push_runs<T: Rows + Drop>(
    list: &mut Vec<Run<T>>,
    runs: &[st_memtable::Run],
) -> Result<(), AllocError>
    ensures { OnOk result (map entries_of_run list.new.items ≡ map entries_of_run list.old.items ++ runs.now) }
{
    for run in runs {
        list.push(Run::Memory(run.clone()?))?;
    }
    Ok(())
}

/// Puts the runs of this memtable at the end.
pub(crate) fn push_memtable<T: Rows + Drop>(
    list: &mut Vec<Run<T>>,
    mem: &Mem,
) -> Result<(), AllocError>
    ensures parts { OnOk result (map entries_of_run list.new.items
        ≡ map entries_of_run list.old.items ++ mem.now.runs) }
    ensures whole { OnOk result (merged mem.now.runs ≡ mem.now.entries) }
{
    push_runs(list, mem.parts())
}

/// Puts the runs of these memtables at the end.
pub(crate) fn push_memtables<T: Rows + Drop>(
    list: &mut Vec<Run<T>>,
    memtables: &[Arc<Mem>],
) -> Result<(), AllocError>
    ensures parts { OnOk result (map entries_of_run list.new.items
        ≡ map entries_of_run list.old.items ++ runs_of_memtables memtables.now) }
    ensures whole { OnOk result (AllByRecursion (λ mem. merged mem.value.runs ≡ mem.value.entries) memtables.now) }
{
    for mem in memtables {
        push_memtable(list, mem)?;
    }
    Ok(())
}

// Puts these tables at the end.
fn push_tables<T: Rows + Drop>(
    list: &mut Vec<Run<T>>,
    tables: &[Arc<Held<T>>],
) -> Result<(), AllocError>
    ensures { OnOk result (map entries_of_run list.new.items
        ≡ map entries_of_run list.old.items ++ runs_of (tables_of tables.now)) }
{
    for table in tables {
        list.push(Run::InPlace(table.clone()?))?;
    }
    Ok(())
}

/// Puts all tables of these levels at the end, level after level.
pub(crate) fn push_levels<T: Rows + Drop>(
    list: &mut Vec<Run<T>>,
    levels: &Levels<Arc<Held<T>>>,
) -> Result<(), AllocError>
    ensures { OnOk result (map entries_of_run list.new.items
        ≡ map entries_of_run list.old.items ++ runs_of (tables_in (map tables_of (levels_of levels.now)))) }
{
    let mut level = 0;
    while level <= 6 {
        push_tables(list, levels.at(level))?;
        level += 1;
    }
    Ok(())
}
