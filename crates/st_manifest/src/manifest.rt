// A manifest on a disk.
ghost use Rattle.std.specs.Prelude.{◌≡◌, ◌+◌, ◌≤◌, ◌++◌, [], is_some, map, max, IfErr, IfOk, IsErr, IsErrOf, IsTrue, None, Ok};
ghost use Rattle.std.specs.Prelude.{OnOk, Some};
ghost use Rattle.st_device.specs.Disk.{ChangesDisk, IsHonest, OnlyFile, ReadsDisk};

use crate::append::append_all;
use crate::edit::Edit;
use crate::group::Group;
use crate::replay::replay_records;
use st_base::List;
use st_device::{Disk, Failed};
use st_gate::{GateLog, LogEnd, LogKind, ReplayFault};
use std::alloc::Global;

/// The manifest in a file.
#[derive(Drop)]
pub struct Manifest {
    pub log: GateLog,
}

impl Manifest {
    ghost use Rattle.manifest_edits.specs.Edits.{edited_all, named_none};
    ghost use Rattle.manifest_edits.specs.Logs.{HasSome, with_more};
    ghost use Rattle.st_manifest.specs.Edit.{as_edit};
    ghost use Rattle.st_manifest.specs.Laid.{edits_in, group_at};
    ghost use Rattle.st_manifest.specs.Manifest.{IsManifestReady, group_records, manifest_read, manifest_replayed, names};
    ghost use Rattle.st_manifest.specs.Replaying.{IsManifestDamage};

    /// Makes a manifest without edits. The file isn't there, and its number is at most one above the disk's `top`.
    pub fn make<D: Disk>(disk: &mut D, file: u64) -> Result<Manifest, Failed>
        requires absent { IsHonest (D.tells disk.old) → (D.tells disk.old).reads file ≡ None }
        requires next { file ≤ (D.tells disk.old).top + 1 }

        ensures crash { IsHonest (D.tells disk.old)
            → OnlyFile file (λ _. Unit {0}) (D.tells disk.old) (D.tells disk.new) }
        ensures ready { IsHonest (D.tells disk.old)
            → IfOk result (λ manifest. IsManifestReady manifest (D.tells disk.new)) }
        ensures empty { IsHonest (D.tells disk.old)
            → IfOk result (λ manifest. group_records manifest (D.tells disk.new) ≡ []) }
        ensures file { IfOk result (λ manifest. manifest.log.file ≡ file) }
        ensures disk { ChangesDisk (D.tells disk.old) (D.tells disk.new) (max (D.tells disk.old).top file)
            (IsErr result) }
    {
        let log = GateLog::make(disk, file, LogKind::Manifest)?;
        Ok(Manifest { log })
    }

    /// How many bytes the manifest has, with its closed gate.
    pub fn length(&self) -> u64
        ensures { result ≡ self.now.log.at + 1 }
    {
        self.log.length()
    }

    /// Adds a group of edits, durably. The manifest is ready, and the edits are right after those that it names, which
    /// `are_right` tests. After `Failed` it isn't appended to again.
    pub fn append_group<D: Disk>(&mut self, disk: &mut D, group: &Group) -> Result<(), Failed>
        requires rest { IsHonest (D.tells disk.old) → IsManifestReady self.old (D.tells disk.old) }
        requires right { IsHonest (D.tells disk.old)
            → IsTrue (is_some (edited_all (names self.old (D.tells disk.old)) (edits_in group.now))) }

        // Each image of a crash within the call has some of the group's records more.
        ensures crash { IsHonest (D.tells disk.old) → OnlyFile self.old.log.file
            (λ this. HasSome (manifest_read ((D.tells disk.old).reads self.old.log.file))
            (group_at self.old.log.at group.now) (manifest_read this))
            (D.tells disk.old) (D.tells disk.new) }
        // After Ok the manifest has all of them, and names what the edits make of what it named.
        ensures ok { IsHonest (D.tells disk.old) → OnOk result (
            manifest_read ((D.tells disk.new).reads self.old.log.file)
            ≡ with_more (manifest_read ((D.tells disk.old).reads self.old.log.file))
            (group_at self.old.log.at group.now)) }
        ensures ready { IsHonest (D.tells disk.old) → OnOk result (IsManifestReady self.new (D.tells disk.new)) }
        ensures named { IsHonest (D.tells disk.old) → OnOk result (
            edited_all (names self.old (D.tells disk.old)) (edits_in group.now)
            ≡ Some (names self.new (D.tells disk.new))) }
        ensures file { self.new.log.file ≡ self.old.log.file }
        ensures disk { ChangesDisk (D.tells disk.old) (D.tells disk.new) (D.tells disk.old).top (IsErr result) }
    {
        append_all(&mut self.log, disk, group.payloads())
    }

    /// The edits of a manifest's whole groups, in order; a group that is cut off at the end of the log adds none.
    /// `Damaged` comes exactly where the file isn't a whole log of manifest records whose groups count down, end with
    /// their one `Last` and have no faulty edit, with the offset of the first damage: of the gate of the record that
    /// isn't whole or of the kind, doesn't count down, or has a faulty edit of a whole group, or of the last record of
    /// a group that doesn't end so; 0 where the file isn't there or is of another kind. No more memory is asked for at
    /// once than the file is long, and the time grows as n log n with the number of edits.
    pub fn replay<D: Disk>(
        alloc: Global,
        disk: &mut D,
        file: u64,
    ) -> Result<List<Edit>, ReplayFault>
        ensures ok { IsHonest (D.tells disk.old)
            → IfOk result (λ edits. manifest_replayed (manifest_read ((D.tells disk.old).reads file))
            ≡ Ok (map as_edit edits)) }
        ensures damage { IsHonest (D.tells disk.old)
            → IfErr result (IsManifestDamage file (manifest_read ((D.tells disk.old).reads file))) }
        ensures disk { ReadsDisk (D.tells disk.old) (D.tells disk.new) (IsErrOf result ReplayFault.DiskFault) }
    {
        let scanned = GateLog::scan(alloc, disk, file, LogKind::Manifest)?;
        let replayed = replay_records(alloc, file, scanned.records.as_slice());
        match (replayed, scanned.end) {
            (Err(fault), _) => Err(fault),
            (Ok(_), LogEnd::Damage(at)) => Err(ReplayFault::Damaged { file, at }),
            (Ok(edits), LogEnd::Gate(_)) => Ok(edits),
        }
    }
}
