// The root file: its last record names the manifest that counts.
//
//   +---------+-----------------+--------+
//   | 1       | manifest's file | behind |   13 bytes
//   | fixed32 | fixed64         | 0 or 1 |
//   +---------+-----------------+--------+
ghost use Rattle.std.specs.Prelude.{◌≡◌, ◌<◌, ◌∷◌, [], nat_lt, IfErr, IfOk, IsErr, IsErrOf, None, Ok, OnOk};
ghost use Rattle.std.specs.List.{list_any};
ghost use Rattle.st_base.specs.Count.{greatest_count};
ghost use Rattle.st_device.specs.Disk.{ChangesDisk, IsHonest, OnlyFile, Untouched};
ghost use Rattle.manifest_edits.specs.Logs.{HasAllOrNone, LogFound, with_more};
ghost use Rattle.st_manifest.specs.Readings.{records_read};
ghost use Rattle.st_manifest.specs.Root.{IsRootDamage, IsRootOf, IsRootReady, root_last, root_payload, root_read, root_record};
ghost use Rattle.st_manifest.specs.Root.{flag_byte, written_root};

use crate::append::append_one;
use crate::payload::file_at;
use st_code::read_fixed32;
use st_device::{Disk, Failed};
use st_gate::{GateLog, LogEnd, LogKind, Record, ReplayFault};
use std::alloc::Global;

/// The file of the root.
pub const ROOT_FILE: u64 = 0;

/// The file whose being there says that the store was made.
pub const MARK_FILE: u64 = 1;

/// The file of a manifest, and whether the store admits files behind all levels.
pub type RootRecord = (u64, bool);

// A flag as a byte.
fn flag_byte(behind: bool) -> u8
    ensures { result ≡ flag_byte behind }
{
    if behind { 1 } else { 0 }
}

// The payload of a root record.
fn root_bytes(manifest: u64, behind: bool) -> [u8; 13]
    ensures { result ≡ written_root manifest behind }
{
    let m = manifest.to_le_bytes();
    let flag = flag_byte(behind);
    [
        1, 0, 0, 0, m[0], m[1], m[2], m[3], m[4], m[5], m[6], m[7], flag,
    ]
}

/// Makes a root without records in file 0, which isn't there.
pub fn root_make<D: Disk>(disk: &mut D) -> Result<GateLog, Failed>
    requires absent { IsHonest (D.tells disk.old) → (D.tells disk.old).reads ROOT_FILE ≡ None }
    ensures crash { IsHonest (D.tells disk.old)
        → OnlyFile ROOT_FILE (λ _. Unit {0}) (D.tells disk.old) (D.tells disk.new) }
    ensures ready { IsHonest (D.tells disk.old) → IfOk result (λ root. IsRootReady root (D.tells disk.new)) }
    ensures empty { IsHonest (D.tells disk.old)
        → IfOk result (λ root. root_read ((D.tells disk.new).reads ROOT_FILE) ≡ LogFound [] None) }
    ensures file { IfOk result (λ root. root.file ≡ ROOT_FILE) }
    ensures disk { ChangesDisk (D.tells disk.old) (D.tells disk.new) (D.tells disk.old).top (IsErr result) }
{
    GateLog::make(disk, ROOT_FILE, LogKind::Root)
}

/// Names a manifest in the root, durably: from then on it counts. The root is ready, and the manifest's file has a
/// number below 18,446,744,073,709,551,615. After `Failed` the root isn't appended to again.
pub fn root_append<D: Disk>(
    root: &mut GateLog,
    disk: &mut D,
    manifest: u64,
    behind: bool,
) -> Result<(), Failed>
    requires ready { IsHonest (D.tells disk.old) → IsRootReady root.old (D.tells disk.old) }
    requires file { manifest < greatest_count }
    ensures crash { IsHonest (D.tells disk.old) → OnlyFile root.old.file
        (λ this. HasAllOrNone (root_read ((D.tells disk.old).reads root.old.file)) ((manifest, behind) ∷ [])
        (root_read this))
        (D.tells disk.old) (D.tells disk.new) }
    ensures ok { IsHonest (D.tells disk.old) → OnOk result (
        root_read ((D.tells disk.new).reads root.old.file)
        ≡ with_more (root_read ((D.tells disk.old).reads root.old.file)) ((manifest, behind) ∷ [])) }
    ensures ready { IsHonest (D.tells disk.old) → OnOk result (IsRootReady root.new (D.tells disk.new)) }
    ensures file { root.new.file ≡ root.old.file }
    ensures disk { ChangesDisk (D.tells disk.old) (D.tells disk.new) (D.tells disk.old).top (IsErr result) }
{
    append_one(root, disk, &root_bytes(manifest, behind))
}

// What a payload says. None exactly where it isn't of the kind.
#[tactic(auto, unfolding(crate::specs::Root::root_payload))]
fn read_root(payload: &[u8]) -> Option<RootRecord>
    ensures { result ≡ root_payload payload.now }
{
    if payload.len() != 13 {
        return None;
    }
    let version = read_fixed32(payload, 0)?;
    let manifest = file_at(payload, 4)?;
    let flag = payload[12];
    if version != 1 || flag > 1 {
        return None;
    }
    Some((manifest, flag == 1))
}

// The last of these records, if there is one; or the offset of the first that isn't of the kind.
fn last_root(records: &[Record]) -> Result<Option<RootRecord>, u64>
    ensures { result ≡ root_last (records_read root_record records.now None) }
{
    let mut last = None;
    for one in records {
        match read_root(one.payload.as_slice()) {
            None => return Err(one.at),
            Some(found) => last = Some(found),
        }
    }
    Ok(last)
}

// Whether one of these numbers is above 1.
fn has_more(names: &[u64]) -> bool
    ensures { result ≡ list_any (λ name. nat_lt 1 name) names.now }
{
    names.iter().any(|name| *name > MARK_FILE)
}

// The answer for a disk without the mark.
fn unmarked_root<D: Disk>(alloc: Global, disk: &mut D) -> Result<Option<RootRecord>, ReplayFault>
    requires { IsHonest (D.tells disk.old) → (D.tells disk.old).reads MARK_FILE ≡ None }
    ensures ok { IsHonest (D.tells disk.old)
        → IfOk result (IsRootOf (D.tells disk.old).reads None) }
    ensures damage { IsHonest (D.tells disk.old)
        → IfErr result (IsRootDamage (D.tells disk.old).reads None) }
    ensures untouched { Untouched (D.tells disk.old) (D.tells disk.new) }
    ensures disk { ChangesDisk (D.tells disk.old) (D.tells disk.new) (D.tells disk.new).top
        (IsErrOf result ReplayFault.DiskFault) }
{
    let names = disk.files(alloc)?;
    if has_more(names.as_slice()) {
        return Err(ReplayFault::Damaged {
            file: MARK_FILE,
            at: 0,
        });
    }
    Ok(None)
}

/// The last record of the root. None comes exactly for a new store: where neither file 1 nor one above it is there, or
/// file 1 is there and the root has no record. `Damaged` comes exactly where file 1 isn't there beside files above it
/// (in file 1, at 0), or the root isn't a whole log of root records (in file 0, at its first damage; at 0 where it isn't
/// there).
pub fn root_replay<D: Disk>(alloc: Global, disk: &mut D) -> Result<Option<RootRecord>, ReplayFault>
    ensures ok { IsHonest (D.tells disk.old)
        → IfOk result (IsRootOf (D.tells disk.old).reads ((D.tells disk.old).reads MARK_FILE)) }
    ensures damage { IsHonest (D.tells disk.old)
        → IfErr result (IsRootDamage (D.tells disk.old).reads ((D.tells disk.old).reads MARK_FILE)) }
    ensures untouched { Untouched (D.tells disk.old) (D.tells disk.new) }
    ensures disk { ChangesDisk (D.tells disk.old) (D.tells disk.new) (D.tells disk.new).top
        (IsErrOf result ReplayFault.DiskFault) }
{
    if disk.length(MARK_FILE)?.is_none() {
        return unmarked_root(alloc, disk);
    }
    let scanned = GateLog::scan(alloc, disk, ROOT_FILE, LogKind::Root)?;
    match (last_root(scanned.records.as_slice()), scanned.end) {
        (Err(at), _) => Err(ReplayFault::Damaged {
            file: ROOT_FILE,
            at,
        }),
        (Ok(_), LogEnd::Damage(at)) => Err(ReplayFault::Damaged {
            file: ROOT_FILE,
            at,
        }),
        (Ok(last), LogEnd::Gate(_)) => Ok(last),
    }
}
