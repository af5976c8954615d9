//! Tests of the manifest and the root file.
//!
//! Each calls public items alone, and compares with rows and bytes that were written down from the format.
#![tactic(auto)]

#[cfg(test)]
mod disks;
#[cfg(test)]
mod group;
#[cfg(test)]
mod index;
#[cfg(test)]
mod replay;
#[cfg(test)]
mod root;
