//! The tests of what readers see: `st_order`, `st_memtable`, `st_merge` and `st_version`, by their public items.
//!
//! A test compares with rows that were worked out by hand. What a clause says for all inputs isn't tested again. `Counted`
//! numbers the entries of a memtable, so that each call of `with` is allowed.
#![tactic(auto)]

#[cfg(test)]
mod change;
#[cfg(test)]
mod counted;
#[cfg(test)]
mod family;
#[cfg(test)]
mod memtable;
#[cfg(test)]
mod merge;
#[cfg(test)]
mod spelled;
#[cfg(test)]
mod state;
#[cfg(test)]
mod view;
