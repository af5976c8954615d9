//! Recovery: what a disk opens to after a stop.
//!
//! File 1 is the mark that the store is whole, and file 3 is its write-ahead log. A disk without the mark has a new
//! store; with it the operations of the log are the store. A layer above speaks of operations, and of the contents that
//! they stand for, and never of files: each image of a crash within `recover` is one that a crash before it could leave,
//! or opens to what the disk read then.
#![tactic(auto)]

mod fault;
mod make;
mod recovery;
mod settle;

pub use fault::OpenFault;
pub use recovery::recover;

/// The file whose being there says that the store is whole.
pub const MARK_FILE: u64 = 1;

/// The file of the write-ahead log.
pub const LOG_FILE: u64 = 3;
