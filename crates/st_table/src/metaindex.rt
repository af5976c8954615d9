//! The metaindex block has handles of blocks under names. These are looked at; others are skipped:
//!
//! ```text
//! rocksdb.properties   the properties block
//! rocksdb.range_del    range deletions, with which a table is refused
//! ```
ghost use Rattle.std.specs.Prelude.{◌≡◌, ◌+◌, ◌≤◌, ◌^◌, ◌<◌, IfOk, IfSome, option_map};
ghost use Rattle.st_table.specs.Handle.{LiesInFile};
ghost use Rattle.st_table.specs.Metaindex.{named_in, properties_handle};
ghost use Rattle.st_table.specs.Found.{found_of};

use crate::handle::{Handle, value_handle};
use st_base::{Scratch, TableFault};
use st_block::Block;

/// The name of the properties block.
pub const PROPERTIES_NAME: &[u8] = b"rocksdb.properties";

/// The name of the range deletions.
const RANGE_DEL_NAME: &[u8] = b"rocksdb.range_del";

/// A value that stands under a name in a block.
#[derive(Clone, Copy)]
pub(crate) struct NamedValue<'a> {
    pub(crate) value: &'a [u8],
    /// Where it begins in the block.
    pub(crate) at: usize,
}

/// The value under the name, or none where the block doesn't have it.
pub(crate) fn named_in<'a>(
    block: &'a Block,
    name: &[u8],
    scratch: &mut Scratch,
) -> Option<NamedValue<'a>>
    ensures value { option_map found_of result ≡ named_in name.now block.now }
    ensures within { IfSome result (λ found. found.at ≤ block.now.end) }
{
    let mut at = block.start();
    while let Some(entry) = block.read(at, scratch) {
        if scratch.as_slice() == name {
            return Some(NamedValue {
                value: entry.value,
                at: entry.next - entry.value.len(),
            });
        }
        at = entry.next;
    }
    None
}

/// The handle of the properties in the metaindex block that begins at the offset in the file. A table with range
/// deletions is refused, and so is one without properties.
#[tactic(auto, unfolding(crate::specs::Metaindex::properties_handle))]
pub(crate) fn properties_handle(
    bytes: &[u8],
    at: u64,
    metaindex: &Block,
    scratch: &mut Scratch,
) -> Result<Handle, TableFault>
    requires { at + metaindex.now.end < 2 ^ 64 }
    ensures value { result ≡ properties_handle bytes.now at metaindex.now }
    ensures lies { IfOk result (LiesInFile bytes.now) }
{
    if named_in(metaindex, RANGE_DEL_NAME, scratch).is_some() {
        return Err(TableFault::RangeDel);
    }
    match named_in(metaindex, PROPERTIES_NAME, scratch) {
        None => Err(TableFault::NoProperties),
        Some(found) => value_handle(bytes, at + found.at as u64, found.value),
    }
}
