//! The engine: a store on a disk, whose accepted writes outlive a stop.
//!
//! A write is logged and synced before it is answered, so each image of a crash within it opens to the contents from
//! before it or after it, and after Ok to the latter. A layer above speaks of the states of the list model: the engine
//! stands for a state (`StandsForState`), each call answers as the model does there, and images are told by the contents that
//! are left of a state.
#![tactic(auto)]

mod engine;
mod newest;
mod ops;
mod store;

pub use engine::{AcceptedWrite, Engine, Options};
pub use log_recover::OpenFault;

/// Why a change isn't made.
pub type ChangeFault = st_model::Refusal;
