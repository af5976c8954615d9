//! In which ranges of keys a compaction may drop tombstones.
//!
//! A tombstone may go where no table below the output level can have an older entry of its key. The keys of the inputs that
//! lie in no lower table's range fall into runs that no such range parts, and each run gives one range. `drop_ranges` finds
//! them by searches: the next key of the inputs, where it stands among the lower tables, and the last key of the inputs in
//! front of the next lower table. It never walks the entries, so that it may be called under a lock.
#![tactic(auto)]

mod cover;
mod drops;
mod ends;
mod lower;

pub use drops::drop_ranges;
