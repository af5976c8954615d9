//! The core of the store as mathematics: what it is, what each event does to it, and when it stands for a state of
//! the model.
//!
//! Definitions, over plain lists, in `specs/`, and the one type of replies. `Picture` is a core: families with
//! memtables and seven levels of tables, snapshots, noted jobs, the turn of a request. `Event` and `Step` say what may
//! happen, when it holds and what it does; `Run` what the model says of the answer; `Relation` when a core stands for
//! a state of the model. Their laws stand in `core_laws`; the rules of its jobs in `job_model`.
#![tactic(auto)]

mod reply;

pub use reply::CoreReply;
