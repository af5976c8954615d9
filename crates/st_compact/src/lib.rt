//! Compaction of sorted inputs: what is kept of their merged list, cut into tables.
//!
//! A compaction leaves of each key's column the newest entry and those that a read at a live number finds; where tombstones
//! may go it loses the oldest kept entry if that is one. The result is exact: entries in entry order with these columns
//! (`IsCompaction`), cut where a table's charges have reached the target (`cut_tables`). The law says that one pass over the
//! merged list, which holds back the last kept entry, is that compaction.
#![tactic(auto)]

mod compaction;
mod cut_tables;
mod keeper;
mod laws;
mod searches;

pub use compaction::compact;
pub use laws::pass_is_a_compaction;
