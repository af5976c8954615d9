//! RocksDB's `SstFileWriter`: a table that is made outside a store, to be ingested.
//!
//! Contracts see a writer as the list of the entries that it was given, all under the sequence number 0. A layer above may
//! rely on this: their keys rise strictly, and `finish` gives exactly the written table of them, which opens again as a
//! table with these entries. Each refusal has its cause, and leaves the writer as it was.
#![tactic(auto)]

mod fault;
mod writer;

pub use fault::{FinishFault, WriterFault};
pub use writer::SstFileWriter;
