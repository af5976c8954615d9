ghost use Rattle.std.specs.Prelude.{◌≡◌, List, ◌++◌};
ghost use Rattle.st_base.specs.declared.entry.Entry.{Entry};
ghost use Rattle.st_order.specs.Columns.{Pairwise};
ghost use Rattle.st_order.specs.Sorted.{sorted};
ghost use Rattle.st_memtable.specs.Memtable.{AreAbove, DifferInPosition, with_memory_entries};

/// Entries with greater numbers that are put one after the other into a sorted list: the list is that of all, sorted.
pub fn put_one_after_the_other()
    ensures { (front entries : List Entry) → AreAbove front entries → Pairwise DifferInPosition entries
        → with_memory_entries (sorted front) entries ≡ sorted (front ++ entries) }
{}
