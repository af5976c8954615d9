// A file is made with all its bytes.
ghost use Rattle.std.specs.Prelude.{◌≡◌, ◌+◌, ◌≤◌, [], IsErr, None, OnOk, Some, max};
ghost use Rattle.st_device.specs.Disk.{ChangesDisk, IsDurable, IsHonest, OnlyFile};

use st_device::{Disk, Failed};

/// The most bytes that one call of the disk writes.
pub const PIECE_BYTES: usize = 1_048_576;

// Writes the bytes into an empty file, in pieces.
fn write_pieces<D: Disk>(disk: &mut D, file: u64, bytes: &[u8]) -> Result<(), Failed>
    requires { IsHonest (D.tells disk.old) → (D.tells disk.old).reads file ≡ Some [] }
    ensures only { IsHonest (D.tells disk.old) → OnlyFile file (λ _. Unit {0}) (D.tells disk.old) (D.tells disk.new) }
    ensures written { IsHonest (D.tells disk.old) → OnOk result ((D.tells disk.new).reads file ≡ Some bytes.now) }
    ensures disk { ChangesDisk (D.tells disk.old) (D.tells disk.new) (D.tells disk.old).top (IsErr result) }
{
    let mut at = 0;
    while at < bytes.len() {
        let end = at + (bytes.len() - at).min(PIECE_BYTES);
        disk.write(file, at as u64, &bytes[at..end])?;
        at = end;
    }
    Ok(())
}

/// Makes the file with these bytes, durably, in pieces of at most `PIECE_BYTES`. The file isn't there, and its number is at most
/// one above the disk's `top`. `Failed` comes only where the disk failed; the file may then be there with any bytes. A crash
/// within the call leaves all other files as they were.
pub fn write_file<D: Disk>(disk: &mut D, file: u64, bytes: &[u8]) -> Result<(), Failed>
    requires absent { IsHonest (D.tells disk.old) → (D.tells disk.old).reads file ≡ None }
    requires next { file ≤ (D.tells disk.old).top + 1 }
    ensures only { IsHonest (D.tells disk.old) → OnlyFile file (λ _. Unit {0}) (D.tells disk.old) (D.tells disk.new) }
    ensures written { IsHonest (D.tells disk.old) → OnOk result ((D.tells disk.new).reads file ≡ Some bytes.now) }
    ensures durable { IsHonest (D.tells disk.old) → OnOk result (IsDurable file (D.tells disk.new)) }
    ensures disk { ChangesDisk (D.tells disk.old) (D.tells disk.new) (max (D.tells disk.old).top file) (IsErr result) }
{
    disk.create(file)?;
    write_pieces(disk, file, bytes)?;
    disk.sync(file)?;
    Ok(())
}
