// What tests of disks share.
use st_device::{Disk, Failed, Fate, MemDisk};
use std::alloc::{AllocError, Global};

/// Fates of writes that no sync has followed.
pub const FATES: [Fate; 5] = [
    Fate::Whole,
    Fate::Lost,
    Fate::Cut(1),
    Fate::Filled(1),
    Fate::Longer(3),
];

/// What a crash of the disk now leaves, with this fate of each write. At most twenty changes were made.
pub fn left_by(alloc: Global, disk: &MemDisk, fate: Fate) -> Result<MemDisk, AllocError> {
    disk.after_crash(alloc, disk.moment(), &[fate; 20], Vec::new(alloc))
}

/// Whether the file is there and reads these bytes, of which there are 63 at most.
pub fn reads_as<D: Disk>(disk: &mut D, file: u64, want: &[u8]) -> Result<bool, Failed> {
    if disk.length(file)?.is_none() {
        return Ok(false);
    }
    let mut bytes = [9u8; 64];
    let count = disk.read(file, 0, &mut bytes)?;
    Ok(&bytes[..count] == want)
}
