// The edits of a manifest's whole groups, read record by record.
ghost use Rattle.std.specs.Prelude.{◌≡◌, ◌≤◌, ℕ, List as Items, [], None, Ok, drop, length, map, IfErr, IfOk, IsErrOf};
ghost use Rattle.manifest_edits.specs.Edits.{Edit as NamedEdit, ManifestReading, manifest_reading_none};
ghost use Rattle.st_manifest.specs.Edit.{as_edit};
ghost use Rattle.st_manifest.specs.Manifest.{group_record, manifest_replayed};
ghost use Rattle.st_manifest.specs.Readings.{records_read};
ghost use Rattle.st_manifest.specs.Replaying.{HasTaken, IsManifestDamage, IsReplaying, follows_left, group_damage};

use crate::edit::Edit;
use crate::judge::{ends_with_last, judge_record};
use crate::payload::read_payload;
use named_index::NamedIndex;
use st_base::List;
use st_gate::{Record, ReplayFault};
use std::alloc::{AllocError, Global};

// What is read of a manifest so far.
#[derive(Drop)]
struct Replaying {
    // The edits of all records.
    edits: List<Edit>,
    // How many of them stand in whole groups.
    whole: usize,
    // How many records follow the last one of the group that is begun. None: no group is begun.
    left: Option<u32>,
    // The offset of the first record of this group with a faulty edit.
    fault: Option<u64>,
    // What the edits name, where none is faulty.
    index: NamedIndex,
}

// Whether a record that so many follow may come now.
fn follows_left(left: Option<u32>, next: u32) -> bool
    ensures { result ≡ follows_left left next }
{
    match left {
        None => true,
        Some(left) => u64::from(left) == u64::from(next) + 1,
    }
}

// The edits from one of them on.
fn edits_from(edits: &[Edit], from: usize) -> &[Edit]
    requires { from ≤ length edits.now }
    ensures { result.now ≡ drop from edits.now }
{
    &edits[from..]
}

// The damage in a whole group of these edits, whose last record is at this offset.
fn group_damage(fault: Option<u64>, edits: &[Edit], at: u64) -> Option<u64>
    ensures { result ≡ group_damage fault (map as_edit edits.now) at }
{
    if fault.is_some() {
        return fault;
    }
    if ends_with_last(edits) {
        None
    } else {
        Some(at)
    }
}

impl Replaying {
    // Nothing is read.
    fn new(alloc: Global) -> Replaying
        ensures { IsReplaying result manifest_reading_none [] }
    {
        Replaying {
            edits: List::new(alloc),
            whole: 0,
            left: None,
            fault: None,
            index: NamedIndex::new(alloc),
        }
    }

    // One record more; or the offset of the damage that it shows.
    fn take(&mut self, alloc: Global, one: &Record) -> Result<Option<u64>, AllocError>
        requires { self.old.whole ≤ length self.old.edits }
        ensures { (reading : ManifestReading) → (found : Items NamedEdit) → IsReplaying self.old reading found
            → IfOk result (λ damage. HasTaken self.new damage one.now.at reading found (group_record one.now)) }
    {
        let from = self.edits.len();
        let payload = one.payload.as_slice();
        let Some(left) = read_payload(alloc, &mut self.edits, payload)? else {
            return Ok(Some(one.at));
        };
        if !follows_left(self.left, left) {
            return Ok(Some(one.at));
        }
        let edits = self.edits.as_slice();
        self.fault = judge_record(&mut self.index, self.fault, edits_from(edits, from), one.at)?;
        if left > 0 {
            self.left = Some(left);
            return Ok(None);
        }
        let group = edits_from(edits, self.whole);
        let damage = group_damage(self.fault, group, one.at);
        self.whole = edits.len();
        self.left = None;
        Ok(damage)
    }
}

/// The edits of the whole groups of these records of a manifest's file; or the first damage in it.
pub fn replay_records(
    alloc: Global,
    file: u64,
    records: &[Record],
) -> Result<List<Edit>, ReplayFault>
    ensures ok { IfOk result (λ edits. manifest_replayed (records_read group_record records.now None)
        ≡ Ok (map as_edit edits)) }
    ensures damage { IfErr result (IsManifestDamage file (records_read group_record records.now None)) }
    ensures fault { IsErrOf result ReplayFault.DiskFault → ⊥ }
{
    let mut replaying = Replaying::new(alloc);
    for one in records {
        match replaying.take(alloc, one)? {
            Some(at) => return Err(ReplayFault::Damaged { file, at }),
            None => {}
        }
    }
    let mut edits = replaying.edits;
    edits.truncate(replaying.whole);
    Ok(edits)
}
