//! Tests of what keeps records on a disk: the disk itself, the gated log, the write-ahead log and recovery.
//!
//! Each calls public items alone, and compares with rows and bytes that were written down from the formats.
#![tactic(auto)]

#[cfg(test)]
mod device;
#[cfg(test)]
mod disks;
#[cfg(test)]
mod gate;
#[cfg(test)]
mod puts;
#[cfg(test)]
mod recover;
#[cfg(test)]
mod wal;
