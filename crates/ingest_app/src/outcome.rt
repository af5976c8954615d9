//! What words are to write, before the sink takes it.
ghost use Rattle.std.specs.Prelude.{◌≡◌, IfOk, IsErr, IsOkAnd};
ghost use Rattle.ingest_app.specs.Outside.{WritesOutcome};

use crate::status::Status;
use st_base::Bytes;
use st_stream::{Failed, Sink, write_all};
use std::alloc::AllocError;

/// A status with the text that goes with it.
#[derive(Drop)]
pub struct Outcome {
    pub status: Status,
    pub text: Bytes,
}

/// Writes the text of an outcome and nothing else, and answers its status, if the sink takes all of the text.
pub fn write_outcome<K: Sink>(sink: &mut K, outcome: Result<Outcome, AllocError>) -> Status
    ensures wrote { IfOk outcome
        (λ outcome. WritesOutcome outcome.status outcome.text (K.tells sink.old) (K.tells sink.new) result) }
    ensures quiet { result ≡ Status.Done → IsOkAnd outcome (λ outcome. outcome.status ≡ Status.Done)
        × ((K.tells sink.new).faults ≡ (K.tells sink.old).faults) }
    ensures memory { IsErr outcome → (result ≡ Status.Memory) × (sink.new ≡ sink.old) }
{
    match outcome {
        Err(_) => Status::Memory,
        Ok(outcome) => match write_all(sink, outcome.text.as_slice()) {
            Ok(()) => outcome.status,
            Err(Failed) => Status::SinkFault,
        },
    }
}
