// A new store is made.
ghost use Rattle.std.specs.Prelude.{◌≡◌, [], IfOk, IsErr, None, Ok, OnOk};
ghost use Rattle.st_device.specs.Disk.{ChangesDisk, IsHonest, Leaves, OnlyFile};
ghost use Rattle.st_wal.specs.Wal.{operations};
ghost use Rattle.log_recover.specs.Opens.{opens};
ghost use Rattle.log_recover.specs.Store.{IsStore};

use crate::{LOG_FILE, MARK_FILE};
use st_device::{Disk, Failed};
use st_wal::Wal;

// Removes the log's file, where it is there.
fn clear_log<D: Disk>(disk: &mut D) -> Result<(), Failed>
    ensures only { IsHonest (D.tells disk.old)
        → OnlyFile LOG_FILE (λ _. Unit {0}) (D.tells disk.old) (D.tells disk.new) }
    ensures absent { IsHonest (D.tells disk.old) → OnOk result ((D.tells disk.new).reads LOG_FILE ≡ None) }
    ensures disk { ChangesDisk (D.tells disk.old) (D.tells disk.new) (D.tells disk.old).top (IsErr result) }
{
    if disk.length(LOG_FILE)?.is_some() {
        disk.remove(LOG_FILE)?;
    }
    Ok(())
}

/// Makes a new store: the log first, and then the mark, which isn't there. A crash within it leaves a new store.
pub fn make_store<D: Disk>(disk: &mut D) -> Result<Wal, Failed>
    requires { IsHonest (D.tells disk.old) → (D.tells disk.old).reads MARK_FILE ≡ None }
    ensures crash { IsHonest (D.tells disk.old)
        → Leaves (λ image. opens image ≡ Ok []) (D.tells disk.old) (D.tells disk.new) }
    ensures store { IsHonest (D.tells disk.old) → IfOk result (λ wal. IsStore wal (D.tells disk.new)) }
    ensures empty { IsHonest (D.tells disk.old) → IfOk result (λ wal. operations wal (D.tells disk.new) ≡ []) }
    ensures disk { ChangesDisk (D.tells disk.old) (D.tells disk.new) (D.tells disk.old).top (IsErr result) }
{
    clear_log(disk)?;
    let wal = Wal::make(disk, LOG_FILE)?;
    disk.create(MARK_FILE)?;
    Ok(wal)
}
