//! Input files, input and output as the program sees them: traits with a ghost meaning and a count of faults, and a small
//! form of each in memory.
//!
//! A call answers `Failed` only where the count of that object rose in the call, or stands at its end. Code that is
//! generic over these traits can't raise a count, so a layer above can't give up without a fault.
#![tactic(auto)]

mod inputs;
mod mem_inputs;
mod mem_sink;
mod mem_source;
mod reading;
mod sink;
mod source;
mod source_reading;
mod writing;

pub use inputs::Inputs;
pub use mem_inputs::{InputFile, MemInputs};
pub use mem_sink::MemSink;
pub use mem_source::MemSource;
pub use reading::{FileRead, read_file};
pub use sink::Sink;
pub use source::Source;
pub use source_reading::{SourceRead, read_source};
pub use st_base::Failed;
pub use st_outside::ReadFault;
pub use writing::write_all;
