// Edits are judged one after the other, by an index of what those before them name.
ghost use Rattle.std.specs.Prelude.{◌≡◌, ◌∷◌, ℕ, map, IfOk, Result};
ghost use Rattle.manifest_edits.specs.Edits.{Named, ends_with_last, is_last_edit};
ghost use Rattle.named_index.specs.Knows.{IsJudged, Knows};
ghost use Rattle.st_manifest.specs.Edit.{as_edit};
ghost use Rattle.st_manifest.specs.Judging.{AreJudged, IsNamedSoFar, edited_next};

use crate::edit::Edit;
use named_index::NamedIndex;
use std::alloc::AllocError;

// Whether an edit is right after those of the index. After a wrong one nothing is said of the index.
fn judge(index: &mut NamedIndex, edit: &Edit) -> Result<bool, AllocError>
    ensures { (named : Named) → Knows index.old named → IfOk result (IsJudged index.new named (as_edit edit.now)) }
{
    match edit {
        Edit::AddFamily { id, name } => index.add_family(*id, name),
        Edit::DropFamily { id } => Ok(index.drop_family(*id)),
        Edit::AddTable {
            family,
            level,
            file,
            ..
        } => index.add_table(*family, *level, *file),
        Edit::DropTable { family, file } => Ok(index.drop_table(*family, *file)),
        Edit::Flushed { family, .. } => Ok(index.set_flushed(*family)),
        Edit::Last { .. } => Ok(true),
        Edit::AddLog { file } => index.add_log(*file),
        Edit::DropLog { file } => Ok(index.drop_log(*file)),
    }
}

/// Whether these edits are right, one after the other, after those that the index knows; where they are, it knows them
/// too. After a wrong one nothing is said of the index.
pub fn are_right(index: &mut NamedIndex, edits: &[Edit]) -> Result<bool, AllocError>
    ensures { (named : Named) → Knows index.old named
        → IfOk result (AreJudged index.new named (map as_edit edits.now)) }
{
    for edit in edits {
        if !judge(index, edit)? {
            return Ok(false);
        }
    }
    Ok(true)
}

/// Judges the edits of the record at an offset, unless a record of its group before it has a faulty edit, whose offset
/// then is given. None where no edit of the group so far is faulty.
pub fn judge_record(
    index: &mut NamedIndex,
    fault: Option<u64>,
    edits: &[Edit],
    at: u64,
) -> Result<Option<u64>, AllocError>
    ensures { (so_far : Result Named ℕ) → (left : ℕ) → IsNamedSoFar index.old fault so_far
        → IfOk result (λ found. IsNamedSoFar index.new found
        (edited_next so_far (record { at = at; left = left; edits = map as_edit edits.now }))) }
{
    if fault.is_some() {
        return Ok(fault);
    }
    if are_right(index, edits)? {
        Ok(None)
    } else {
        Ok(Some(at))
    }
}

// Whether the edit is `Last`.
fn is_last(edit: &Edit) -> bool
    ensures { result ≡ is_last_edit (as_edit edit.now) }
{
    match edit {
        Edit::Last { .. } => true,
        Edit::AddFamily { .. } => false,
        Edit::DropFamily { .. } => false,
        Edit::AddTable { .. } => false,
        Edit::DropTable { .. } => false,
        Edit::Flushed { .. } => false,
        Edit::AddLog { .. } => false,
        Edit::DropLog { .. } => false,
    }
}

/// Whether the last of these edits is `Last`, and no other is.
pub fn ends_with_last(edits: &[Edit]) -> bool
    ensures { result ≡ ends_with_last (map as_edit edits.now) }
{
    let mut i = 0;
    while i < edits.len() {
        if is_last(&edits[i]) {
            return i + 1 == edits.len();
        }
        i += 1;
    }
    false
}
