//! Laws of the jobs' rules: the level rule and the ranges of dropping.
//!
//! Each law is the contract of a function without a body; statements stand in `specs/Laws`. They speak of
//! `job_model` alone, so that the code of levels, compactions and picking stands on them, and the core's laws too. The
//! lemmas behind them stand in `proofs/` as public modules: `Rules` (the level rule as one walk), `RangeKeys` (entries
//! in a range), `Rightward` and `Rising` (keys put one by one), `DropRuns` and `Ranges` (where tombstones may go),
//! `Shown` (picking over what is shown).
#![tactic(auto)]

mod laws;

pub use laws::{
    drop_runs_apart, lowest_is_reached, no_cause_no_entry, rule_is_free, rule_is_within,
    rule_passes, runs_are_clear,
};
