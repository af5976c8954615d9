// Records of the write-ahead log.
ghost use Rattle.st_device.specs.Disk.{IsHonest};
ghost use Rattle.st_wal.specs.Wal.{IsReady};

use st_base::{Key, Mark, Value};
use st_device::Disk;
use st_wal::{LogRecord, Wal};
use std::alloc::Global;
use std::test::Fail;

/// Appends the records: how many were answered Ok, up to the first that wasn't.
pub fn append_both<D: Disk>(disk: &mut D, wal: &mut Wal, one: &LogRecord, two: &LogRecord) -> usize
    requires { IsHonest (D.tells disk.old) → IsReady wal.old (D.tells disk.old) }
{
    if wal.append(disk, one).is_err() {
        return 0;
    }
    if wal.append(disk, two).is_ok() {
        return 2;
    }
    1
}

/// The record of a put of few bytes, with a small number and a small family.
pub fn one_put(
    alloc: Global,
    first: u64,
    family: u32,
    key: &[u8],
    value: &[u8],
) -> Result<LogRecord, Fail> {
    if first > 1000 || family > 1000 || key.len() > 1000 || value.len() > 1000 {
        return Err(Fail::new("a test's operation is small"));
    }
    let key = Key::new(alloc, key)?;
    let value = Value::new(alloc, value)?;
    let operations = [(family, key, Mark::Put(value))];
    Ok(LogRecord::new(alloc, first, &operations)?)
}
