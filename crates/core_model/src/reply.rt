use st_base::List;
use st_model::{Placed, Refusal};

/// What the core answers to an event.
#[derive(Drop)]
pub enum CoreReply {
    /// A write is taken: its place, and the numbers of its first and its last operation.
    BatchWritten(u64, u64, u64),
    /// A snapshot is taken: its place, its id, and the number at which it reads.
    SnapshotTaken(u64, u64, u64),
    /// A change is taken, at this place.
    At(u64),
    /// What was to be done inside the core is done.
    Done,
    /// A job of this number was picked, and is noted.
    JobPicked(u64),
    /// The job is forgotten, since its family is gone.
    FamilyGone,
    /// The request has the turn.
    TurnGiven,
    /// The request is taken in, at this place, with where each of its files went.
    Received(u64, List<Placed>),
    /// The event doesn't hold now, and nothing changes.
    NotNow,
    /// The event is refused, and nothing changes but that a turn ends.
    Refused(Refusal),
}
