//! What jobs and placing do, as mathematics over runs of entries: the columns of keys and what a compaction leaves of them,
//! where tombstones may go, how entries are cut into tables, which compaction is picked, and at which level a file is placed.
//!
//! Definitions alone, in `specs/`, over runs, ranges and what jobs show of themselves, so that the crates of code below the
//! core and the core's model say the same.
#![tactic(auto)]
