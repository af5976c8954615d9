//! The tests of the table crates: `st_code`, `st_block`, `st_table` and `sst_writer`, by their public items.
//!
//! A test compares with rows that were worked out by hand or made by another program. What a clause says for all inputs isn't
//! tested again.
#![tactic(auto)]

#[cfg(test)]
mod block;
#[cfg(test)]
mod code;
#[cfg(test)]
mod samples;
#[cfg(test)]
mod sst;
#[cfg(test)]
mod table;
