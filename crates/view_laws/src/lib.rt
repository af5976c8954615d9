//! What a scan of a family's runs is in the list model, and what a write of the core does to memtables.
//!
//! A scan (`st_merge`) walks along the merged list of the family's runs. Where a state that readers see stands for a state of
//! the model, it gives exactly the model's pairs. A write's operations (`core_model`) go into memtables as `st_memtable` puts
//! them. The laws are functions without a body.
#![tactic(auto)]

mod laws;

pub use laws::{scans_are_the_models, writes_fill_memtables};
