ghost use Rattle.std.specs.Prelude.{◌≡◌, IfOk};
ghost use Rattle.std.specs.Option.{option_copied};
ghost use Rattle.st_model.specs.Read.{last_write, mark_at, read};

use st_base::{Entry, Key, Mark, Value};
use st_model::ModelFamily;
use std::alloc::AllocError;

// The mark of the last write of the key up to the number.
fn last_write<'a>(writes: &'a [Entry], number: u64, key: &Key) -> Option<&'a Mark>
    ensures { option_copied result ≡ last_write writes.now number key.now }
{
    let mut found = None;
    for write in writes {
        if write.key == *key && write.number <= number {
            found = Some(&write.mark);
        }
    }
    found
}

/// The key's mark as of the sequence number: that of its last write up to it, else that of the family's base.
pub fn mark_at<'a>(family: &'a ModelFamily, number: u64, key: &Key) -> Option<&'a Mark>
    ensures { option_copied result ≡ mark_at family.now number key.now }
{
    match last_write(family.writes.as_slice(), number, key) {
        Some(mark) => Some(mark),
        None => family.base.get(key),
    }
}

/// The key's value as of the sequence number. A tombstone has none, and nor has a key without a mark.
pub fn read(family: &ModelFamily, number: u64, key: &Key) -> Result<Option<Value>, AllocError>
    ensures { IfOk result (λ value. value ≡ read family.now number key.now) }
{
    match mark_at(family, number, key) {
        Some(Mark::Put(value)) => Ok(Some(value.clone()?)),
        Some(Mark::Gone) => Ok(None),
        None => Ok(None),
    }
}
