//! Sorted parts merged into one list, and scans over them.
//!
//! A `Merge` over any number of parts walks along their merged list (`merged` of `st_order`): all entries in entry order,
//! where of two entries at one position that of the earlier part comes first. A step says where its entry stands; `entry_at`
//! reads it there, and `owned` copies it. `scan` gives what a read at a number finds in a range of keys, up to its two ends.
//! A memtable enters as one part for each of its runs.
#![tactic(auto)]

mod copies;
mod entry_index;
mod heads;
mod laws;
mod merge;
mod read;
mod reader;
mod scanning;
mod tree;

pub use copies::owned;
pub use entry_index::EntryIndex;
pub use laws::scans_find_what_reads_find;
pub use merge::Merge;
pub use read::entry_at;
pub use scanning::scan;
