//! The properties block has values under names. These are looked at or written; others are skipped:
//!
//! ```text
//! rocksdb.block.based.table.index.type     fixed32: 0, where it is there
//! rocksdb.comparator                       leveldb.BytewiseComparator, where it is there; written
//! rocksdb.external_sst_file.global_seqno   fixed64: 0 is written in external tables; not looked at
//! rocksdb.external_sst_file.version        fixed32: 2; written in external tables, which must have it
//! rocksdb.num.entries                      varint64: how many entries there are; written, and not looked at
//! ```
ghost use Rattle.std.specs.Prelude.{◌≡◌};
ghost use Rattle.st_table.specs.Properties.{comparator_fault, fixed32_value, index_type_fault, properties_fault, version_fault};

use crate::kind::TableKind;
use crate::metaindex::named_in;
use st_base::{Scratch, TableFault};
use st_block::Block;
use st_code::read_fixed32;

/// The kind of the index.
const INDEX_TYPE_NAME: &[u8] = b"rocksdb.block.based.table.index.type";

/// The name of the order of keys.
pub const COMPARATOR_NAME: &[u8] = b"rocksdb.comparator";

/// The order of keys as byte strings.
pub const BYTEWISE_COMPARATOR: &[u8] = b"leveldb.BytewiseComparator";

/// The sequence number of all entries of an external table.
pub const SEQUENCE_NAME: &[u8] = b"rocksdb.external_sst_file.global_seqno";

/// The version of external tables.
pub const VERSION_NAME: &[u8] = b"rocksdb.external_sst_file.version";

/// The version of external tables that is read and written.
pub const EXTERNAL_VERSION: u32 = 2;

/// How many entries there are.
pub const ENTRIES_NAME: &[u8] = b"rocksdb.num.entries";

// The number that a value of four bytes is.
fn fixed32_value(value: &[u8]) -> Option<u32>
    ensures { result ≡ fixed32_value value.now }
{
    if value.len() == 4 {
        read_fixed32(value, 0)
    } else {
        None
    }
}

// The fault of an external table of another version.
fn version_fault(kind: TableKind, block: &Block, scratch: &mut Scratch) -> Option<TableFault>
    ensures { result ≡ version_fault kind block.now }
{
    if kind == TableKind::Own {
        return None;
    }
    let version = match named_in(block, VERSION_NAME, scratch) {
        Some(found) => fixed32_value(found.value),
        None => None,
    };
    match version {
        Some(EXTERNAL_VERSION) => None,
        _ => Some(TableFault::ExternalVersion(version)),
    }
}

// The fault of a table with another order of keys.
fn comparator_fault(block: &Block, scratch: &mut Scratch) -> Option<TableFault>
    ensures { result ≡ comparator_fault block.now }
{
    match named_in(block, COMPARATOR_NAME, scratch) {
        Some(found) if found.value != BYTEWISE_COMPARATOR => Some(TableFault::Comparator),
        _ => None,
    }
}

// The fault of a table with another kind of index.
fn index_type_fault(block: &Block, scratch: &mut Scratch) -> Option<TableFault>
    ensures { result ≡ index_type_fault block.now }
{
    match named_in(block, INDEX_TYPE_NAME, scratch) {
        Some(found) if fixed32_value(found.value) != Some(0) => Some(TableFault::IndexKind),
        _ => None,
    }
}

/// The first fault of the properties.
#[tactic(auto, unfolding(crate::specs::Properties::properties_fault))]
pub(crate) fn properties_fault(
    kind: TableKind,
    block: &Block,
    scratch: &mut Scratch,
) -> Option<TableFault>
    ensures { result ≡ properties_fault kind block.now }
{
    if let Some(fault) = version_fault(kind, block, scratch) {
        return Some(fault);
    }
    if let Some(fault) = comparator_fault(block, scratch) {
        return Some(fault);
    }
    index_type_fault(block, scratch)
}
