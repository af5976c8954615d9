ghost use Rattle.std.specs.Prelude.{◌≡◌, ◌≤◌, ℕ, ◌∷◌, [], List};
ghost use Rattle.core_model.specs.Commit.{put_table};
ghost use Rattle.core_model.specs.Compaction.{with_compacted};
ghost use Rattle.core_model.specs.Picture.{FamilyView, FileEntries, Job};
ghost use Rattle.st_version.specs.Replace.{replaced};

/// The tables that are replaced at a level from 1 on are those of the core's compaction with these outputs; one table that
/// comes in is put at its level as the core puts it.
pub fn replace_is_the_cores()
    ensures compacted { (job : Job) (outputs : List FileEntries) (family : FamilyView) → 1 ≤ job.level
        → replaced job.files job.level outputs family ≡ with_compacted job outputs family }
    ensures placed { (level : ℕ) (table : FileEntries) (family : FamilyView)
        → (replaced [] level (table ∷ []) family).levels ≡ put_table level table family.levels }
{}
