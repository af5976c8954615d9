//! The laws of the core: each event, and so each list of events, is a step of the list model.
//!
//! Each law is the contract of a function without a body, and its statement stands in `specs/`: `Claims` (single
//! parts), `Laws`, `Underway` (a request file by file), `SoundCore` (what an event keeps of a core alone). The layer
//! above relies on `step_refines`: where a core stands for a state of the model, the answer of an event is the
//! model's, and the core after it stands for the state after it. That an event which holds does something is
//! `event_does_something`.
#![tactic(auto)]

mod laws;

pub use laws::{
    commit_stands, compaction_can_be_installed, compaction_exists, compaction_is_one,
    event_does_something, every_run_refines, file_keeps_underway, flush_can_be_installed,
    levels_stand_by_key, new_core_represents, picked_is_well_picked, picked_runs,
    picking_sees_ranges, represents_state, request_is_drafted, rows_are_sorted_runs,
    step_keeps_bounds, step_refines,
};
