// Every file is synced.
ghost use Rattle.std.specs.Prelude.{◌≡◌, ◌<◌, ℕ, IsErr, IsErrOf, OnOk, length, slice_index};
ghost use Rattle.st_device.specs.Disk.{ChangesDisk, IsDurable, IsHonest, Leaves, There};
ghost use Rattle.log_recover.specs.Store.{IsSettled};

use st_device::{Disk, Failed, ReadFault};
use std::alloc::Global;

// Syncs these files, which are there.
fn sync_each<D: Disk>(disk: &mut D, names: &[u64]) -> Result<(), Failed>
    requires { IsHonest (D.tells disk.old) → (k : ℕ) → k < length names.now
        → There ((D.tells disk.old).reads (slice_index names.now k)) (λ _. Unit {0}) }
    ensures crash { IsHonest (D.tells disk.old) → Leaves (D.tells disk.old).now (D.tells disk.old) (D.tells disk.new) }
    ensures reads { IsHonest (D.tells disk.old)
        → OnOk result ((file : ℕ) → (D.tells disk.new).reads file ≡ (D.tells disk.old).reads file) }
    ensures settled { IsHonest (D.tells disk.old)
        → OnOk result ((k : ℕ) → k < length names.now → IsDurable (slice_index names.now k) (D.tells disk.new)) }
    ensures disk { ChangesDisk (D.tells disk.old) (D.tells disk.new) (D.tells disk.old).top (IsErr result) }
{
    for name in names {
        disk.sync(*name)?;
    }
    Ok(())
}

/// Syncs every file that is there. It adds no image, and after Ok a crash leaves of each file what it reads.
pub fn settle<D: Disk>(alloc: Global, disk: &mut D) -> Result<(), ReadFault>
    ensures crash { IsHonest (D.tells disk.old) → Leaves (D.tells disk.old).now (D.tells disk.old) (D.tells disk.new) }
    ensures reads { IsHonest (D.tells disk.old)
        → OnOk result ((file : ℕ) → (D.tells disk.new).reads file ≡ (D.tells disk.old).reads file) }
    ensures settled { IsHonest (D.tells disk.old) → OnOk result (IsSettled (D.tells disk.new)) }
    ensures disk { ChangesDisk (D.tells disk.old) (D.tells disk.new) (D.tells disk.new).top
        (IsErrOf result ReadFault.Failed) }
{
    let names = disk.files(alloc)?;
    sync_each(disk, names.as_slice())?;
    Ok(())
}
