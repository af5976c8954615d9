//! The top call over objects in memory, where none of its premises is left.
ghost use Rattle.std.specs.Prelude.{map, String, string_bytes};
ghost use Rattle.st_device.specs.MemDisk.{told};
ghost use Rattle.st_stream.specs.MemInputsState.{mem_inputs_told};
ghost use Rattle.st_stream.specs.MemSink.{mem_sink_told};
ghost use Rattle.st_stream.specs.MemSource.{mem_source_told};
ghost use Rattle.ingest_app.specs.Form.{form_of};
ghost use Rattle.ingest_app.specs.Memory.{IsCompleteInMemory, RunsInMemory};
ghost use Rattle.ingest_app.specs.Outside.{outside};

use crate::status::Status;
use crate::top_call::run;
use st_device::{MemDisk, memory_disks_are_honest};
use st_stream::{MemInputs, MemSink, MemSource};
use std::alloc::Global;

/// `run` over a disk, input files, a source and a sink in memory, which tell all that they hold. So the transcript, the
/// table or the build text is what was written, and every image of a crash is one of the run, without any premise.
pub fn run_in_memory(
    alloc: Global,
    words: &[String],
    disk: MemDisk,
    inputs: &mut MemInputs,
    source: &mut MemSource,
    sink: &mut MemSink,
) -> (Status, MemDisk)
    ensures ended { RunsInMemory (form_of (map string_bytes words.now))
        (outside (mem_inputs_told inputs.old) (mem_source_told source.old) (told disk)
        (mem_sink_told sink.old))
        (outside (mem_inputs_told inputs.new) (mem_source_told source.new) (told result.1)
        (mem_sink_told sink.new)) result.0 }
    ensures complete { IsCompleteInMemory (form_of (map string_bytes words.now))
        (outside (mem_inputs_told inputs.old) (mem_source_told source.old) (told disk)
        (mem_sink_told sink.old))
        (outside (mem_inputs_told inputs.new) (mem_source_told source.new) (told result.1)
        (mem_sink_told sink.new)) result.0 }
{
    memory_disks_are_honest();
    run(alloc, words, disk, inputs, source, sink)
}
