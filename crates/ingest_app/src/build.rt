//! Build text to a table.
ghost use Rattle.std.specs.Prelude.{◌≡◌, ◌≤◌, ◌<◌, ◌++◌, [], length, IfOk, OnOk, Ok};
ghost use Rattle.std.specs.Fmt.{decimal};
ghost use Rattle.build_text.specs.Build.{GivesEntries, build_of, entries_from, some_entries};
ghost use Rattle.build_text.specs.Words.{text_parts};
ghost use Rattle.ingest_app.specs.Convert.{EndsBytes, GivesTable, build_cause, fault_at, fit_table, unfinished};

use crate::command_line::Conversion;
use crate::conversions::refused;
use crate::outcome::Outcome;
use crate::status::Status;
use build_text::{BuildFault, EntryWriter, LineEntry, write_build};
use sst_writer::{FinishFault, SstFileWriter, WriterFault};
use st_base::Bytes;
use std::alloc::{AllocError, Global};

// The fault of an entry that the writer doesn't take, which stands in the line of this number.
fn fault_at(number: u32, fault: WriterFault) -> BuildFault
    ensures { result ≡ fault_at number fault }
{
    match fault {
        WriterFault::NotRising => BuildFault::NotRising { line: number },
        WriterFault::TooLarge => BuildFault::TooLarge { line: number },
        WriterFault::OutOfMemory => BuildFault::OutOfMemory,
    }
}

// A table's writer, which takes the entries of a build text's lines.
#[derive(Drop)]
struct TableLines {
    writer: SstFileWriter,
}

/// The entries have to fit one external table.
impl EntryWriter for TableLines {
    ghost use Rattle.ingest_app.specs.Convert.{fit_table};

    ghost entries = { λ lines. lines.writer };

    ghost fits = { fit_table };

    fn write(&mut self, alloc: Global, line: u32, entry: LineEntry<'_>) -> Result<(), BuildFault> {
        match self.writer.add(alloc, entry.key, entry.mark) {
            Ok(()) => Ok(()),
            Err(fault) => Err(fault_at(line, fault)),
        }
    }
}

// A writer with the entries of the text's lines.
fn write_lines(alloc: Global, text: &[u8]) -> Result<SstFileWriter, BuildFault>
    requires { length text.now < 4294967295 }
    ensures { GivesEntries result (entries_from fit_table [] 1 (text_parts text.now)) }
{
    let writer = SstFileWriter::new(alloc)?;
    let mut lines = TableLines { writer };
    match write_build(alloc, text, &mut lines) {
        Ok(()) => Ok(lines.writer),
        Err(fault) => Err(fault),
    }
}

// The fault of a writer that isn't finished.
fn unfinished(fault: FinishFault) -> BuildFault
    ensures { result ≡ unfinished fault }
{
    match fault {
        FinishFault::NoEntry => BuildFault::NoEntry,
        FinishFault::OutOfMemory => BuildFault::OutOfMemory,
    }
}

// The table of what was written.
fn finish(alloc: Global, writer: SstFileWriter) -> Result<Bytes, BuildFault>
    ensures { GivesTable result (some_entries (Ok writer)) }
{
    match writer.finish(alloc) {
        Ok(table) => Ok(table),
        Err((_, fault)) => Err(unfinished(fault)),
    }
}

// The table of the entries of the text.
fn table_of(alloc: Global, text: Bytes) -> Result<Bytes, BuildFault>
    requires { length text < 4294967295 }
    ensures { GivesTable result (build_of fit_table text) }
{
    let written = write_lines(alloc, text.as_slice());
    drop(text);
    match written {
        Ok(writer) => finish(alloc, writer),
        Err(fault) => Err(fault),
    }
}

// The number of a line and what is wrong with it.
fn line_cause(alloc: Global, line: u32, name: &[u8]) -> Result<Bytes, AllocError>
    ensures { IfOk result (λ cause. cause ≡ decimal line ++ name.now) }
{
    let mut cause = Bytes::from_slice(alloc, line.to_string(alloc)?.as_bytes())?;
    cause.extend_from_slice(name)?;
    Ok(cause)
}

// `LINE NAME`
fn cause_of(alloc: Global, fault: BuildFault) -> Result<Bytes, AllocError>
    ensures cause { IfOk result (λ cause. cause ≡ build_cause fault) }
    ensures memory { OnOk result (fault ≡ BuildFault.OutOfMemory → ⊥) }
{
    match fault {
        BuildFault::Line { line } => line_cause(alloc, line, b" Line"),
        BuildFault::TooLarge { line } => line_cause(alloc, line, b" TooLarge"),
        BuildFault::NotRising { line } => line_cause(alloc, line, b" NotRising"),
        BuildFault::NoEntry => Bytes::from_slice(alloc, b"0 NoEntry"),
        BuildFault::OutOfMemory => Err(AllocError),
    }
}

/// The table of the build text, or its first fault.
pub fn build(alloc: Global, text: Bytes) -> Result<Outcome, AllocError>
    requires { length text ≤ 268435456 }
    ensures { IfOk result (λ outcome. EndsBytes Conversion.Build text outcome.status outcome.text) }
{
    match table_of(alloc, text) {
        Ok(table) => Ok(Outcome {
            status: Status::Done,
            text: table,
        }),
        Err(fault) => {
            let cause = cause_of(alloc, fault)?;
            refused(alloc, cause.as_slice())
        }
    }
}
