//! The memtable: entries in memory, as sorted runs that memtables share.
//!
//! A `Mem` is seen as the list of its entries in entry order, and its runs. `with` gives a memtable that has more entries,
//! and leaves the old one as it is: both share the runs that stay, and all entries. Each run has at least twice the
//! entries of the next, so there are few. Reads search each run by halves and take no memory. For a merge each run is a
//! part of its own: `parts` gives them as `Rows`, and their merged list is the memtable's.
#![tactic(auto)]

mod join;
mod laws;
mod mem;
mod more;
mod run;
mod search;
mod single;
mod totals;

pub use laws::put_one_after_the_other;
pub use mem::Mem;
pub use run::Run;
