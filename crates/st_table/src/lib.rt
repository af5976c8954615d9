//! Whole tables in RocksDB's block-based format, with a footer of version 2:
//!
//! ```text
//! data blocks        entries under internal keys, at least one a block
//! index block        the handle of each data block, under a key that parts it from the next
//! properties block   names and values: the comparator, the version of external files, ..
//! metaindex block    names and handles: that of the properties
//! footer             checksum type, handles of the metaindex and the index, version, magic number
//! ```
//!
//! Each block has a trailer of 5 bytes after it: its compression type, and its sum.
//!
//! A layer above may rely on this: what `Table::open` accepts is a table of its kind, and the opened table is the list of
//! its entries; what it refuses has exactly the first fault in reading order. Bytes are read once, from the footer to the
//! last data block, and nothing is reserved by a count or a length that they state. Under another number a table shares
//! its entries, and none is copied. Handles, stored blocks and the footer are written here too, beside their readers, for
//! the crate that writes tables.
#![tactic(auto)]

mod data_blocks;
mod entries;
mod entry_arena;
mod fault;
mod find;
mod footer;
mod handle;
mod kind;
mod laws;
mod metaindex;
mod properties;
mod shared_entries;
mod stored;
mod table;

pub use fault::OpenTableFault;
pub use footer::put_footer;
pub use handle::{Handle, handle_bytes};
pub use kind::{TableKind, greatest_size};
pub use laws::{external_is_own, own_numbers_stay, table_or_first_fault};
pub use metaindex::PROPERTIES_NAME;
pub use properties::{
    BYTEWISE_COMPARATOR, COMPARATOR_NAME, ENTRIES_NAME, EXTERNAL_VERSION, SEQUENCE_NAME,
    VERSION_NAME,
};
pub use stored::{TRAILER_BYTES, push_stored};
pub use table::Table;
