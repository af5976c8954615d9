//! Tests of the disk in a folder, of input files of the working folder, and of standard input and output.
//!
//! Each calls public items alone. A test runs in a folder of its own.
#![tactic(auto)]

#[cfg(test)]
mod disk;
#[cfg(test)]
mod streams;
