//! Tables are written here, in RocksDB's block-based format: data blocks, index, properties, metaindex and footer, with
//! nothing between.
//!
//! A layer above may rely on this: `TableWriter::finish` gives exactly the written table of what was added, which is a table
//! of its kind with these entries, and `add` says exactly when it would pass its kind's limit.
#![tactic(auto)]

mod ending;
mod fault;
mod laws;
mod stored_blocks;
mod writer;

pub use fault::AddFault;
pub use laws::{table_writer_holds_what_is_added, written_table_opens};
pub use writer::TableWriter;
