//! The tests of `opening_checks`, by its public items: tables and operations that were written down by hand, with the files
//! that an opening blames.
#![tactic(auto)]

#[cfg(test)]
mod logs;
#[cfg(test)]
mod made;
#[cfg(test)]
mod meeting;
#[cfg(test)]
mod unfallen;
