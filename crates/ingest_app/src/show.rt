//! A table to its build text.
ghost use Rattle.std.specs.Prelude.{◌≡◌, IfOk};
ghost use Rattle.st_base.specs.Faults.{printed_table_fault};
ghost use Rattle.build_text.specs.Build.{build_text};
ghost use Rattle.ingest_app.specs.Convert.{EndsBytes};

use crate::command_line::Conversion;
use crate::conversions::refused;
use crate::outcome::Outcome;
use crate::status::Status;
use build_text::push_build_line;
use st_base::{Bytes, Rows, Scratch};
use st_table::{OpenTableFault, Table, TableKind};
use std::alloc::{AllocError, Global};
use std::sync::Arc;

// The build text of these rows.
fn text_of<T: Rows>(alloc: Global, rows: &T) -> Result<Bytes, AllocError>
    ensures { IfOk result (λ text. text ≡ build_text (T.rows rows.now)) }
{
    let mut scratch = Scratch::new(alloc)?;
    let mut text = Bytes::new(alloc);
    for index in 0..rows.len() {
        push_build_line(&mut text, rows.at(index, &mut scratch))?;
    }
    Ok(text)
}

/// The build text of the table that the bytes are, or their first fault.
pub fn show(alloc: Global, bytes: Bytes) -> Result<Outcome, AllocError>
    ensures { IfOk result (λ outcome. EndsBytes Conversion.Show bytes outcome.status outcome.text) }
{
    let bytes = Arc::new(alloc, bytes)?;
    match Table::open(alloc, bytes, TableKind::External, 0) {
        Ok(table) => Ok(Outcome {
            status: Status::Done,
            text: text_of(alloc, &table)?,
        }),
        Err(OpenTableFault::Bad(fault)) => { refused(alloc, fault.to_string(alloc)?.as_bytes()) }
        Err(OpenTableFault::OutOfMemory) => Err(AllocError),
    }
}
