//! What the objects of the outside share: a count of faults, the calls of an object in memory that are to fail, and bytes
//! that are read from an offset on.
//!
//! A call answers `Failed` only where the count of its object rose in the call, or stands at its end. The types here count
//! so, and nothing above repeats it.
#![tactic(auto)]

mod copying;
mod failing_calls;
mod fault_count;
mod read_fault;

pub use copying::copy_from;
pub use failing_calls::FailingCalls;
pub use fault_count::FaultCount;
pub use read_fault::ReadFault;
