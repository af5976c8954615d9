//! The tests of the published history, by public items: a history of snapshots, one writer, and readers in other
//! threads.
//!
//! The history of the tests takes one snapshot after the other in a new store, so the state at a place has the
//! snapshots of the places up to it. That these states stand for it is proved. A test reads them back as that rule
//! tells.
#![tactic(auto)]

#[cfg(test)]
mod calls;
#[cfg(test)]
mod snapshots;
#[cfg(test)]
mod threads;
