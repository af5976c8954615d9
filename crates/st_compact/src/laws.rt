ghost use Rattle.std.specs.Prelude.{◌≡◌, ℕ, List};
ghost use Rattle.st_base.specs.declared.entry.Entry.{Entry};
ghost use Rattle.st_base.specs.declared.entry.KeyRange.{KeyRange};
ghost use Rattle.st_order.specs.Columns.{IsJoined};
ghost use Rattle.job_model.specs.Compaction.{IsCompaction};
ghost use Rattle.st_compact.specs.Pass.{pass_all};

/// What the pass leaves of the one list of runs is their compaction.
pub fn pass_is_a_compaction()
    ensures { (runs : List (List Entry)) (live : List ℕ) (drops : List KeyRange) (entries : List Entry)
        → IsJoined runs entries → IsCompaction runs live drops (pass_all live drops entries) }
{}
