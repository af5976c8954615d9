use crate::refusal::Refusal;
use st_base::{Key, List, Value};
use std::alloc::AllocError;

/// Where a file of an accepted request went.
#[derive(Clone, Copy, PartialEq, Drop)]
pub struct Placed {
    /// Its file number.
    pub file: u64,
    pub level: u8,
    /// Its sequence number, or 0.
    pub number: u64,
}

/// What a command is answered.
#[derive(Drop)]
pub enum Reply {
    /// A write is accepted, and this is the last sequence number that it took.
    Written(u64),
    /// The key has this value.
    Found(Value),
    /// The key has no value.
    Nothing,
    /// The values of the keys of a view, where they have one.
    View(List<Option<Value>>),
    /// The pairs of a scan, by key.
    Pairs(List<(Key, Value)>),
    /// A snapshot is taken, at this sequence number.
    Snapshot(u64),
    /// The snapshot is let go.
    Released,
    /// The family is made.
    Made,
    /// The family is dropped.
    Dropped,
    /// The family's memtables are in level 0.
    Flushed,
    /// The family's tables are merged.
    Compacted,
    /// The files are taken in, in the order of the request.
    Ingested(List<Placed>),
    /// The awaited command is answered.
    Await,
    /// The transcript is too long for a read.
    Long,
    /// The command is refused.
    Refused(Refusal),
}

impl Clone for Reply {
    ghost use Rattle.std.specs.Prelude.{◌≡◌};

    ghost is_clone = { λ reply copy. copy ≡ reply };

    fn clone(&self) -> Result<Reply, AllocError> {
        match self {
            Reply::Written(number) => Ok(Reply::Written(*number)),
            Reply::Found(value) => Ok(Reply::Found(value.clone()?)),
            Reply::Nothing => Ok(Reply::Nothing),
            Reply::View(values) => Ok(Reply::View(values.clone()?)),
            Reply::Pairs(pairs) => Ok(Reply::Pairs(pairs.clone()?)),
            Reply::Snapshot(number) => Ok(Reply::Snapshot(*number)),
            Reply::Released => Ok(Reply::Released),
            Reply::Made => Ok(Reply::Made),
            Reply::Dropped => Ok(Reply::Dropped),
            Reply::Flushed => Ok(Reply::Flushed),
            Reply::Compacted => Ok(Reply::Compacted),
            Reply::Ingested(placed) => Ok(Reply::Ingested(placed.clone()?)),
            Reply::Await => Ok(Reply::Await),
            Reply::Long => Ok(Reply::Long),
            Reply::Refused(refusal) => Ok(Reply::Refused(refusal.clone()?)),
        }
    }
}
