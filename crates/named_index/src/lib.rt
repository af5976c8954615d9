//! What a manifest's edits name, kept so that the next edit is judged without a walk along those before it.
//!
//! The layer above hands in one edit after the other, and hears whether it is right after those before it. Each call
//! takes a time that grows with the logarithm of the number of edits.
#![tactic(auto)]

mod index;

pub use index::NamedIndex;
