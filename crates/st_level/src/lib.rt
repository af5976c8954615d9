//! At which level an ingested file that isn't behind is placed.
//!
//! The level rule walks the levels of a family downwards until one has an entry in the file's range, or a running job's
//! outputs may meet it there. The last level passed at which no table's range meets the file's is the answer; `Stop` names
//! what stopped the walk. Level 0 is looked at table by table, each of the others by halves.
#![tactic(auto)]

mod choice;
mod least;
mod rule;

pub use choice::{Choice, Stop};
pub use least::{first_reaching, meets_by_key};
pub use rule::choose_level;
