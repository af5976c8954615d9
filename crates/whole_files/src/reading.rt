// All bytes of a file.
ghost use Rattle.std.specs.Prelude.{◌≡◌, IfOk, IsErrOf, Some, length, map, option_map};
ghost use Rattle.st_device.specs.Disk.{IsHonest, ReadsDisk, There};

use st_device::{Disk, ReadFault};
use std::alloc::Global;

// All bytes of a file of this size.
fn read_bytes<D: Disk>(
    alloc: Global,
    disk: &mut D,
    file: u64,
    size: u64,
) -> Result<Vec<u8>, ReadFault>
    requires { IsHonest (D.tells disk.old) → There ((D.tells disk.old).reads file) (λ bytes. length bytes ≡ size) }
    ensures whole { IsHonest (D.tells disk.old)
        → IfOk result (λ bytes. (D.tells disk.old).reads file ≡ Some bytes.items) }
    ensures disk { ReadsDisk (D.tells disk.old) (D.tells disk.new) (IsErrOf result ReadFault.Failed) }
{
    let mut bytes = vec![in alloc; 0u8; size as usize]?;
    let count = disk.read(file, 0, &mut bytes)?;
    bytes.truncate(count);
    Ok(bytes)
}

/// All bytes of the file; None exactly where it isn't there. No more memory is asked for than the file is long. `Failed` comes
/// where the disk fails, and `OutOfMemory` where there is no room for the bytes; each leaves the disk as it was.
pub fn read_file<D: Disk>(
    alloc: Global,
    disk: &mut D,
    file: u64,
) -> Result<Option<Vec<u8>>, ReadFault>
    ensures told { IsHonest (D.tells disk.old) → IfOk result
        (λ found. option_map (λ bytes. bytes.items) found ≡ (D.tells disk.old).reads file) }
    ensures disk { ReadsDisk (D.tells disk.old) (D.tells disk.new) (IsErrOf result ReadFault.Failed) }
{
    let Some(size) = disk.length(file)? else {
        return Ok(None);
    };
    Ok(Some(read_bytes(alloc, disk, file, size)?))
}
