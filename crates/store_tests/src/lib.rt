//! Tests of the engine and of the top calls, over disks, input files, sources and sinks in memory.
#![tactic(auto)]

#[cfg(test)]
mod conversions;
#[cfg(test)]
mod crashes;
#[cfg(test)]
mod engine;
#[cfg(test)]
mod faults;
#[cfg(test)]
mod outside;
#[cfg(test)]
mod runs;
