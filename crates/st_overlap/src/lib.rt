//! Tests of overlap: where a range of keys meets entries, the ranges of tables, or the outputs of running jobs.
//!
//! Each gives the index of the first that meets the range, and None exactly where none does. `meets_rows` asks for an entry
//! with a key in the range, and searches by halves; the others ask whether two ranges meet, and look at each in turn.
#![tactic(auto)]

mod overlap;

pub use overlap::{first_key_of, last_key_of, meets_range, meets_rows, meets_running, range_meets};
