//! What touches files, paths and standard streams: the disk in a folder, input files of the working folder, standard input
//! and standard output.
//!
//! Each meets the contract of its trait, and a call answers `Failed` only where its count rose in the call, or stands at
//! its end. A layer above is generic over the traits and never names these; only a program does.
//!
//! Of `FolderDisk`'s calls `files` alone takes memory, so running out of memory is never a fault of a real disk.
//!
//! They tell nothing of bytes, so no clause refuses a body of theirs that finds, reads, keeps or writes nothing; a test
//! calls each.
#![tactic(auto)]

mod folder;
mod folder_disk;
mod folder_inputs;
mod open_files;
mod path;
mod std_sink;
mod std_source;

pub use folder_disk::FolderDisk;
pub use folder_inputs::FolderInputs;
pub use std_sink::StdSink;
pub use std_source::StdSource;
