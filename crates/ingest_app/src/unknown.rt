//! Words that are no form.
ghost use Rattle.std.specs.Prelude.{◌≡◌, IfOk};
ghost use Rattle.ingest_app.specs.Ended.{EndsUnknown, UnknownCause};
ghost use Rattle.ingest_app.specs.Outside.{EndsWriting};
ghost use Rattle.ingest_app.specs.Texts.{not_yet_text};

use crate::outcome::{Outcome, write_outcome};
use crate::status::Status;
use crate::texts::not_yet_text;
use st_stream::Sink;
use std::alloc::{AllocError, Global};

// What they are answered.
fn not_yet(alloc: Global) -> Result<Outcome, AllocError>
    ensures { IfOk result (λ outcome. (outcome.status ≡ Status.NotYet) × (outcome.text ≡ not_yet_text)) }
{
    Ok(Outcome {
        status: Status::NotYet,
        text: not_yet_text(alloc)?,
    })
}

/// Writes what they are answered and nothing else.
pub fn write_unknown<K: Sink>(alloc: Global, sink: &mut K) -> Status
    ensures ended { EndsWriting EndsUnknown (K.tells sink.old) (K.tells sink.new) result }
    ensures cause { UnknownCause (K.tells sink.old) (K.tells sink.new) result }
{
    let outcome = not_yet(alloc);
    write_outcome(sink, outcome)
}
