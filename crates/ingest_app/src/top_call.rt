//! The top call.
ghost use Rattle.std.specs.Prelude.{◌≡◌, IsTrue, IfOk, map, String, string_bytes};
ghost use Rattle.st_base.specs.Names.{is_name};
ghost use Rattle.st_device.specs.Disk.{Passes};
ghost use Rattle.st_stream.specs.Inputs.{InputsUntouched};
ghost use Rattle.ingest_app.specs.Ended.{Cause, Ended, IsComplete, LeavesDisk, LeavesInputs, LeavesSource};
ghost use Rattle.ingest_app.specs.Form.{HasFileName, form_of, form_read};
ghost use Rattle.ingest_app.specs.Outside.{EndsWriting, outside};
ghost use Rattle.ingest_app.specs.Run.{EndsRun, IsBeforeDisk};

use crate::client_run::run_client;
use crate::command_line::{CommandLine, read_command_line};
use crate::conversions::convert_source_to;
use crate::outcome::write_outcome;
use crate::status::Status;
use crate::unknown::write_unknown;
use st_device::Disk;
use st_stream::{Inputs, Sink, Source};
use std::alloc::Global;

// Runs the client of this name, and writes the text of the outcome and nothing else.
fn run_named<D: Disk, I: Inputs, K: Sink>(
    alloc: Global,
    name: &str,
    disk: D,
    inputs: &mut I,
    sink: &mut K,
) -> (Status, D)
    requires { IsTrue (is_name name.now) }
    ensures ended { EndsWriting
        (EndsRun name.now (I.tells inputs.old) (I.tells inputs.new) (D.tells disk) (D.tells result.1))
        (K.tells sink.old) (K.tells sink.new) result.0 }
    ensures quiet { result.0 ≡ Status.Done → ((D.tells result.1).faults ≡ (D.tells disk).faults)
        × ((K.tells sink.new).faults ≡ (K.tells sink.old).faults) }
    ensures disk_untouched { IsBeforeDisk result.0 → result.1 ≡ disk }
    ensures passes { Passes (D.tells disk) (D.tells result.1) }
    ensures inputs_untouched { InputsUntouched (I.tells inputs.old) (I.tells inputs.new) }
{
    let (outcome, disk) = run_client(alloc, name, disk, inputs);
    (write_outcome(sink, outcome), disk)
}

// Runs what the words ask for.
fn run_line<D: Disk, I: Inputs, S: Source, K: Sink>(
    alloc: Global,
    line: CommandLine<'_>,
    disk: D,
    inputs: &mut I,
    source: &mut S,
    sink: &mut K,
) -> (Status, D)
    requires { HasFileName line }
    ensures ended { Ended (form_read line.entry)
        (outside (I.tells inputs.old) (S.tells source.old) (D.tells disk) (K.tells sink.old))
        (outside (I.tells inputs.new) (S.tells source.new) (D.tells result.1) (K.tells sink.new)) result.0 }
    ensures cause { Cause (form_read line.entry)
        (outside (I.tells inputs.old) (S.tells source.old) (D.tells disk) (K.tells sink.old))
        (outside (I.tells inputs.new) (S.tells source.new) (D.tells result.1) (K.tells sink.new)) result.0 }
    ensures passes { Passes (D.tells disk) (D.tells result.1) }
    ensures files { InputsUntouched (I.tells inputs.old) (I.tells inputs.new) }
    ensures disk { LeavesDisk (form_read line.entry) result.0 → result.1 ≡ disk }
    ensures inputs { LeavesInputs (form_read line.entry) → inputs.new ≡ inputs.old }
    ensures source { LeavesSource (form_read line.entry) → source.new ≡ source.old }
{
    match line {
        CommandLine::Run(name) => run_named(alloc, name, disk, inputs, sink),
        CommandLine::Convert(form) => (convert_source_to(alloc, form, source, sink), disk),
        CommandLine::Unknown => (write_unknown(alloc, sink), disk),
    }
}

/// Runs the words of a command line. `run NAME` answers the commands of the client file of that name, in order, over
/// the store of the disk, and writes their transcript. `build` and `show` convert the source, as `convert` does. The
/// status says how it ended. The disk is handed back.
///
/// Where the inputs or the source don't tell their bytes, as those of a real folder, there is a file, or there are bytes,
/// from which all that is said follows. What the disk holds is said of an honest one, and of the sink what it tells.
pub fn run<D: Disk, I: Inputs, S: Source, K: Sink>(
    alloc: Global,
    words: &[String],
    disk: D,
    inputs: &mut I,
    source: &mut S,
    sink: &mut K,
) -> (Status, D)
    // What was written, status by status. Of a client: after Done, and after a disk fault in the run, the transcript of the
    // client file, whose calls are legal from the contents that the disk read; and every image of a crash since the opening
    // opens to the contents after the first changes of these calls, or to those with the change that was cut off; at the end
    // it has all changes. Of a conversion: after Done the table, or the build text, and after Refused the first fault.
    ensures ended { Ended (form_of (map string_bytes words.now))
        (outside (I.tells inputs.old) (S.tells source.old) (D.tells disk) (K.tells sink.old))
        (outside (I.tells inputs.new) (S.tells source.new) (D.tells result.1) (K.tells sink.new)) result.0 }

    // When each status comes. Done comes only where no count of faults rose: of the disk, the source and the sink.
    ensures cause { Cause (form_of (map string_bytes words.now))
        (outside (I.tells inputs.old) (S.tells source.old) (D.tells disk) (K.tells sink.old))
        (outside (I.tells inputs.new) (S.tells source.new) (D.tells result.1) (K.tells sink.new)) result.0 }

    // Words that ask for a run of a script over a store, or for a conversion, are answered, where nothing fails and memory
    // is there.
    ensures complete { IsComplete (form_of (map string_bytes words.now))
        (outside (I.tells inputs.old) (S.tells source.old) (D.tells disk) (K.tells sink.old))
        (outside (I.tells inputs.new) (S.tells source.new) (D.tells result.1) (K.tells sink.new)) result.0 }

    // The disk passes on the law of its moments, and the input files stay. The disk comes back as it was where a client
    // file isn't read or is no script; only a run of a client calls it and reads input files, and only a conversion reads
    // the source.
    ensures passes { Passes (D.tells disk) (D.tells result.1) }
    ensures files { InputsUntouched (I.tells inputs.old) (I.tells inputs.new) }
    ensures disk { LeavesDisk (form_of (map string_bytes words.now)) result.0 → result.1 ≡ disk }
    ensures inputs { LeavesInputs (form_of (map string_bytes words.now)) → inputs.new ≡ inputs.old }
    ensures source { LeavesSource (form_of (map string_bytes words.now)) → source.new ≡ source.old }
{
    run_line(alloc, read_command_line(words), disk, inputs, source, sink)
}
