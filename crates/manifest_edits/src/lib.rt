//! The edits of a manifest as mathematics: what a list of them names, which edit is faulty, and groups that count as
//! a whole.
//!
//! Definitions in `specs/`, without a byte: `Edits` (an edit, what is named, records and groups as they are read),
//! `Groups` (how the edits of a call are cut into records), `CallEdits` (which edits each call writes), `Logs` (what
//! a gated log reads as). The layers above rely on the laws: right edits that end with the last number are cut into
//! one group, each of its records fits, and of a group nothing counts before its last record.
#![tactic(auto)]

mod laws;

pub use laws::{begun_group_reads, cut_fits, cut_group, whole_group_reads};
