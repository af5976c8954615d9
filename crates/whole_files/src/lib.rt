//! Whole files of a disk: made durably with all their bytes, and read.
//!
//! A table is such a file. It is written while nothing names it, in pieces, and synced once behind the last of them; a crash
//! within leaves all other files as they were.
#![tactic(auto)]

mod reading;
mod writing;

pub use reading::read_file;
pub use writing::{PIECE_BYTES, write_file};
