//! The order of entries in code: keys compared, and sorted runs as one list.
//!
//! `merged` is the list that several sorted runs stand for: all their entries in entry order, where of two entries at one
//! position that of the earlier run comes first. A memtable is the merged list of its runs, and a merge gives the merged list
//! of its parts. The laws say that it has the column of each key along the runs, which is what reads look at. The lemmas
//! behind these stand in `proofs/` as public modules, once for all crates above: `Halves` (the first entry in a range, by
//! halves), `Mapped` and `Ends`, `Sorted`, `Columns`, `Least`.
#![tactic(auto)]

mod keys;
mod laws;

pub use keys::{at_most, below};
pub use laws::{merged_has_columns, merged_is_joined};
