// A store is opened.
ghost use Rattle.std.specs.Prelude.{◌≡◌, ◌⊎◌, Bool, IfErr, IfOk, IsErrOf, IsSome, Ok, OnOk};
ghost use Rattle.st_device.specs.Disk.{ChangesDisk, Image, IsHonest, Leaves, ReadsDisk};
ghost use Rattle.st_wal.specs.Wal.{operations};
ghost use Rattle.log_recover.specs.Contents.{SameContents, disk_contents, opened_contents};
ghost use Rattle.log_recover.specs.Opens.{IsDamageOf, first_log_fault, opens};
ghost use Rattle.log_recover.specs.Store.{IsSettled, IsStore};

use crate::fault::OpenFault;
use crate::make::make_store;
use crate::settle::settle;
use crate::{LOG_FILE, MARK_FILE};
use st_base::List;
use st_device::Disk;
use st_wal::{Logged, Wal, WalEnd};
use std::alloc::Global;

// The offset of the record of the first operation that isn't one of `default`, or whose number doesn't rise.
fn first_fault(operations: &[Logged]) -> Option<u64>
    ensures { result ≡ first_log_fault 0 operations.now }
{
    let mut last = 0;
    for logged in operations {
        if logged.family != 0 || logged.number <= last {
            return Some(logged.at);
        }
        last = logged.number;
    }
    None
}

// The operations of the log of a store that is whole.
fn read_log<D: Disk>(alloc: Global, disk: &mut D) -> Result<(List<Logged>, Wal), OpenFault>
    requires settled { IsHonest (D.tells disk.old) → IsSettled (D.tells disk.old) }
    requires marked { IsHonest (D.tells disk.old) → IsSome ((D.tells disk.old).reads MARK_FILE) }
    ensures ok { IsHonest (D.tells disk.old) → IfOk result (λ read. opens (D.tells disk.old).reads ≡ Ok read.0) }
    ensures store { IsHonest (D.tells disk.old) → IfOk result (λ read. IsStore read.1 (D.tells disk.new)) }
    ensures operations { IsHonest (D.tells disk.old)
        → IfOk result (λ read. operations read.1 (D.tells disk.new) ≡ read.0) }
    ensures damage { IsHonest (D.tells disk.old) → IfErr result (IsDamageOf (opens (D.tells disk.old).reads)) }
    ensures disk { ReadsDisk (D.tells disk.old) (D.tells disk.new) (IsErrOf result OpenFault.DiskFault) }
{
    let scanned = Wal::scan(alloc, disk, LOG_FILE)?;
    if let Some(at) = first_fault(scanned.operations.as_slice()) {
        return Err(OpenFault::Damaged { file: LOG_FILE, at });
    }
    match scanned.end {
        WalEnd::Gate(wal) => Ok((scanned.operations, wal)),
        WalEnd::Damage(at) => Err(OpenFault::Damaged { file: LOG_FILE, at }),
    }
}

// The operations of the store of a disk, with its log; or a new store is made.
fn read_store<D: Disk>(alloc: Global, disk: &mut D) -> Result<(List<Logged>, Wal), OpenFault>
    ensures ok { IsHonest (D.tells disk.old) → IfOk result (λ read. opens (D.tells disk.old).reads ≡ Ok read.0) }
    ensures store { IsHonest (D.tells disk.old) → IfOk result (λ read. IsStore read.1 (D.tells disk.new)) }
    ensures operations { IsHonest (D.tells disk.old)
        → IfOk result (λ read. operations read.1 (D.tells disk.new) ≡ read.0) }
    ensures damage { IsHonest (D.tells disk.old) → IfErr result (IsDamageOf (opens (D.tells disk.old).reads)) }
    ensures crash { IsHonest (D.tells disk.old)
        → Leaves (λ image. (D.tells disk.old).now image ⊎ (opens image ≡ opens (D.tells disk.old).reads))
        (D.tells disk.old) (D.tells disk.new) }
    ensures after { IsHonest (D.tells disk.old)
        → OnOk result ((image : Image) → (D.tells disk.new).now image → opens image ≡ opens (D.tells disk.old).reads) }
    ensures disk { ChangesDisk (D.tells disk.old) (D.tells disk.new) (D.tells disk.new).top
        (IsErrOf result OpenFault.DiskFault) }
{
    settle(alloc, disk)?;
    if disk.length(MARK_FILE)?.is_some() {
        return read_log(alloc, disk);
    }
    let wal = make_store(disk)?;
    Ok((List::new(alloc), wal))
}

/// Opens the store of a disk, or makes a new one where its mark isn't there: its operations, in order, and its log.
///
/// Every file that is there is synced first. `Damaged` comes exactly where the disk reads a store that is damaged, with
/// the offset of its damage; a disk fault or `OutOfMemory` may come instead.
pub fn recover<D: Disk>(alloc: Global, disk: &mut D) -> Result<(List<Logged>, Wal), OpenFault>
    // The operations leave the contents, and the known keys, that the disk reads.
    ensures ok { IsHonest (D.tells disk.old) → IfOk result (λ read. (behind : Bool)
        → disk_contents behind (D.tells disk.old).reads ≡ Ok (opened_contents behind read.0)) }
    ensures store { IsHonest (D.tells disk.old) → IfOk result (λ read. IsStore read.1 (D.tells disk.new)) }
    ensures operations { IsHonest (D.tells disk.old)
        → IfOk result (λ read. operations read.1 (D.tells disk.new) ≡ read.0) }
    ensures damage { IsHonest (D.tells disk.old) → IfErr result (λ fault. (behind : Bool)
        → IsDamageOf (disk_contents behind (D.tells disk.old).reads) fault) }

    // Each image of a crash within the call is one that a crash at its beginning could leave, or opens to what the disk
    // read then. After Ok each does the latter.
    ensures crash { IsHonest (D.tells disk.old)
        → Leaves (λ image. (D.tells disk.old).now image ⊎ SameContents image (D.tells disk.old).reads)
        (D.tells disk.old) (D.tells disk.new) }
    ensures after { IsHonest (D.tells disk.old)
        → OnOk result ((image : Image) → (D.tells disk.new).now image → SameContents image (D.tells disk.old).reads) }

    ensures disk { ChangesDisk (D.tells disk.old) (D.tells disk.new) (D.tells disk.new).top
        (IsErrOf result OpenFault.DiskFault) }
{
    read_store(alloc, disk)
}
