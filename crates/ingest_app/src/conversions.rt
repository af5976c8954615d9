//! Conversions of the source: build text to a table, and back.
ghost use Rattle.std.specs.Prelude.{◌≡◌, ◌≤◌, ◌<◌, List, ℕ, length, IfOk, map, String, string_bytes};
ghost use Rattle.st_base.specs.Count.{Rose};
ghost use Rattle.st_stream.specs.SourceRead.{IsReadWithin, source_read};
ghost use Rattle.ingest_app.specs.Convert.{ConversionCause, EndsBytes, EndsSource, IsOfBytes};
ghost use Rattle.ingest_app.specs.Ended.{AsksConversion, ConvertingCause, EndsConverting, IsConverted};
ghost use Rattle.ingest_app.specs.Form.{form_of, form_read};
ghost use Rattle.ingest_app.specs.Outside.{EndsWriting};
ghost use Rattle.ingest_app.specs.Texts.{refused_text, source_text};

use crate::build::build;
use crate::command_line::{CommandLine, Conversion, read_command_line};
use crate::outcome::{Outcome, write_outcome};
use crate::show::show;
use crate::status::Status;
use crate::texts::{refused_text, source_text};
use crate::unknown::write_unknown;
use st_base::{Bytes, SOURCE_BYTES};
use st_stream::{ReadFault, Sink, Source, SourceRead, read_source};
use std::alloc::{AllocError, Global};

/// What a source is answered that isn't converted, by the cause.
pub fn refused(alloc: Global, cause: &[u8]) -> Result<Outcome, AllocError>
    ensures { IfOk result (λ outcome. (outcome.status ≡ Status.Refused) × (outcome.text ≡ refused_text cause.now)) }
{
    Ok(Outcome {
        status: Status::Refused,
        text: refused_text(alloc, cause)?,
    })
}

// What a source is answered that has failed.
fn unread(alloc: Global) -> Result<Outcome, AllocError>
    ensures { IfOk result (λ outcome. (outcome.status ≡ Status.InputFault) × (outcome.text ≡ source_text)) }
{
    Ok(Outcome {
        status: Status::InputFault,
        text: source_text(alloc)?,
    })
}

// The outcome of a source of these bytes.
fn convert_bytes(alloc: Global, form: Conversion, bytes: Bytes) -> Result<Outcome, AllocError>
    requires { length bytes ≤ SOURCE_BYTES }
    ensures { IfOk result (λ outcome. EndsBytes form bytes outcome.status outcome.text) }
{
    match form {
        Conversion::Build => build(alloc, bytes),
        Conversion::Show => show(alloc, bytes),
    }
}

// The outcome of a source that is too long to be read whole. A table as long as that is too large.
fn too_long(alloc: Global, form: Conversion) -> Result<Outcome, AllocError>
    ensures status { IfOk result (λ outcome. outcome.status ≡ Status.Refused) }
    ensures ends { IfOk result
        (λ outcome. (bytes : List ℕ) → SOURCE_BYTES < length bytes → EndsBytes form bytes outcome.status outcome.text) }
{
    match form {
        Conversion::Build => refused(alloc, b"0 TooLong"),
        Conversion::Show => refused(alloc, b"TooLarge"),
    }
}

// The outcome of what was read of a source.
fn convert_read(alloc: Global, form: Conversion, read: SourceRead) -> Result<Outcome, AllocError>
    requires { IsReadWithin SOURCE_BYTES read }
    ensures status { IfOk result (λ outcome. IsOfBytes outcome.status) }
    ensures ends { IfOk result (λ outcome. (bytes : List ℕ) → read ≡ source_read SOURCE_BYTES bytes
        → EndsBytes form bytes outcome.status outcome.text) }
{
    match read {
        SourceRead::Whole(bytes) => convert_bytes(alloc, form, bytes),
        SourceRead::TooLong => too_long(alloc, form),
    }
}

// The outcome of the conversion of a source.
fn convert_source<S: Source>(
    alloc: Global,
    form: Conversion,
    source: &mut S,
) -> Result<Outcome, AllocError>
    ensures ends { IfOk result
        (λ outcome. EndsSource form (S.tells source.old) (S.tells source.new) outcome.status outcome.text) }
    ensures quiet { IfOk result (λ outcome. outcome.status ≡ Status.Done
        → (S.tells source.new).faults ≡ (S.tells source.old).faults) }
{
    match read_source(alloc, source, SOURCE_BYTES) {
        Ok(read) => convert_read(alloc, form, read),
        Err(ReadFault::Failed) => unread(alloc),
        Err(ReadFault::OutOfMemory) => Err(AllocError),
    }
}

/// Converts the source, and writes the text of the outcome and nothing else.
pub fn convert_source_to<S: Source, K: Sink>(
    alloc: Global,
    form: Conversion,
    source: &mut S,
    sink: &mut K,
) -> Status
    ensures ended { EndsWriting (EndsSource form (S.tells source.old) (S.tells source.new))
        (K.tells sink.old) (K.tells sink.new) result }
    ensures cause { ConversionCause form (S.tells source.old) (S.tells source.new)
        (K.tells sink.old) (K.tells sink.new) result }
{
    let outcome = convert_source(alloc, form, source);
    write_outcome(sink, outcome)
}

// Converts the source, where the words ask for that.
fn convert_line<S: Source, K: Sink>(
    alloc: Global,
    line: CommandLine<'_>,
    source: &mut S,
    sink: &mut K,
) -> Status
    ensures ended { EndsWriting (EndsConverting (form_read line.entry) (S.tells source.old) (S.tells source.new))
        (K.tells sink.old) (K.tells sink.new) result }
    ensures cause { ConvertingCause (form_read line.entry) (S.tells source.old) (S.tells source.new)
        (K.tells sink.old) (K.tells sink.new) result }
{
    match line {
        CommandLine::Convert(form) => convert_source_to(alloc, form, source, sink),
        CommandLine::Run(_) => write_unknown(alloc, sink),
        CommandLine::Unknown => write_unknown(alloc, sink),
    }
}

/// Converts the source, as the words ask: `build` writes the table of a build text, and `show` the build text of an
/// external table. The status says how it ended. It calls on nothing but the source and the sink, and always returns.
///
/// Where the source doesn't tell its bytes, as standard input, there are bytes from which all that is said follows.
pub fn convert<S: Source, K: Sink>(
    alloc: Global,
    words: &[String],
    source: &mut S,
    sink: &mut K,
) -> Status
    // What was written, status by status: after Done the table, or the build text; after Refused the first fault.
    ensures ended { EndsWriting
        (EndsConverting (form_of (map string_bytes words.now)) (S.tells source.old) (S.tells source.new))
        (K.tells sink.old) (K.tells sink.new) result }

    // When each status comes.
    ensures cause { ConvertingCause (form_of (map string_bytes words.now)) (S.tells source.old) (S.tells source.new)
        (K.tells sink.old) (K.tells sink.new) result }

    // Words that ask for a conversion are answered, where nothing fails and memory is there.
    ensures complete { AsksConversion (form_of (map string_bytes words.now))
        → ¬ Rose (S.tells source.old).faults (S.tells source.new).faults
        → ¬ Rose (K.tells sink.old).faults (K.tells sink.new).faults → IsConverted result }
{
    convert_line(alloc, read_command_line(words), source, sink)
}
