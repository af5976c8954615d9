//! One block of a table, as LevelDB and RocksDB lay it out:
//!
//! ```text
//! entry ..                   varint32 shared, varint32 unshared, varint32 value length, unshared key bytes, value
//! restart offset ..          each a fixed32: the offset of an entry that shares nothing; the first is 0, and they rise
//! count of restart offsets   a fixed32
//! ```
//!
//! The layer above may rely on this: `Block::open` accepts exactly the blocks of this layout and answers the first fault of
//! all others; it takes no memory and reads a block where it lies in shared bytes. `Block::lower` is the first offset
//! at or after a key and a sequence number. `BlockWriter::finish` gives exactly the written block, and opening it gives
//! the entries that were added.
#![tactic(auto)]

mod block;
mod entry;
mod internal_key;
mod keys;
mod kind;
mod laws;
mod open;
mod tail;
mod walk;
mod writer;

pub use block::{Block, BlockEntry};
pub use internal_key::{
    KINDS, PACKED_BYTES, TOMBSTONE_KIND, VALUE_KIND, entry_under, internal_cmp, internal_key_in,
    is_kind, packed, unpacked, user_key, value_under,
};
pub use kind::BlockKind;
pub use laws::{index_keys_rise, writer_holds_what_is_added, written_block_opens};
pub use writer::BlockWriter;
