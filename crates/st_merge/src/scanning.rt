ghost use Rattle.std.specs.Prelude.{◌≡◌, IfOk, map};
ghost use Rattle.st_order.specs.Order.{between};
ghost use Rattle.st_order.specs.Sorted.{merged};
ghost use Rattle.st_merge.specs.Scan.{cut_pairs, live_pairs};

use crate::merge::Merge;
use crate::read::entry_at;
use crate::reader::Reader;
use st_base::{Key, Rows, Scratch, Value};
use st_order::below;
use std::alloc::{AllocError, Global};

/// The pairs that a read at the number finds for the keys from `first` to `last`, in key order. There are at most `limit`,
/// and none behind the pair with which their keys and values reach 1,048,576 bytes, which still stands there.
pub fn scan<T: Rows>(
    alloc: Global,
    parts: &[T],
    first: &Key,
    last: &Key,
    number: u64,
    limit: usize,
) -> Result<Vec<(Key, Value)>, AllocError>
    ensures { IfOk result (λ pairs. pairs.items
        ≡ cut_pairs limit 0 (live_pairs (between first.now last.now) number (merged (map T.rows parts.now)))) }
{
    let low = first.as_bytes();
    let high = last.as_bytes();
    let mut merge = Merge::at_or_after(alloc, parts, low)?;
    let mut scratch = Scratch::new(alloc)?;
    let mut reader = Reader::new(alloc, low, high, number, limit);
    while let Some(entry_index) = merge.next() {
        if reader.room == 0 {
            return Ok(reader.pairs);
        }
        let entry = entry_at(parts, entry_index, &mut scratch);
        if below(high, entry.key) {
            return Ok(reader.pairs);
        }
        reader.take(entry)?;
    }
    Ok(reader.pairs)
}
