// What tests of manifests share.
use st_device::{Disk, Failed, UnrecordedDisk};

/// Whether the file is there and reads these bytes, of which there are 127 at most.
pub fn reads_as<D: Disk>(disk: &mut D, file: u64, want: &[u8]) -> Result<bool, Failed> {
    if disk.length(file)?.is_none() {
        return Ok(false);
    }
    let mut bytes = [9u8; 128];
    let count = disk.read(file, 0, &mut bytes)?;
    Ok(&bytes[..count] == want)
}

/// Makes a file of these bytes.
pub fn write_file(disk: &mut UnrecordedDisk, file: u64, bytes: &[u8]) -> Result<(), Failed> {
    if file > 3 {
        return Err(Failed);
    }
    disk.create(file)?;
    disk.write(file, 0, bytes)
}
