//! The core of a store in code: what a store holds in memory, and what its events make of it.
//!
//! A `CoreOf` is generic over its tables and seen as the core's picture (`Core` of `core_model`). An event that takes
//! memory is prepared beside the core: `prepare_..` changes nothing and gives the answer with the core after it, whose
//! clause is the event's case of the core's step. `accept` then does it, takes no memory and isn't refused. What needs no
//! memory is done at once. Want of memory leaves the core as it was.
//!
//! Events that are here: Write, Snap, Release, MakeFamily, DropFamily, Seal, FlushPicked, FlushInstalled, CompactInstalled,
//! JobGivenUp, TurnReturned. The others aren't here yet. What an installation asks of who brings it is `IsAdmissible`.
#![tactic(auto)]

mod compaction;
mod copies;
mod families;
mod family_events;
mod flush;
mod input;
mod installs;
mod job;
mod jobs;
mod machine;
mod opening;
mod operations;
mod shared;
mod snapshots;
mod turn;
mod write;

pub use input::Input;
pub use job::Job;
pub use machine::{Core, CoreOf, PreparedStep};
pub use turn::{Part, Turn};
