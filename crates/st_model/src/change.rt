use st_base::{Entries, Family, Key, List, Value};

/// One operation of a write.
#[derive(Drop, Clone)]
pub enum Op {
    /// Sets the family's key to the value.
    Put(Family, Key, Value),
    /// Puts a tombstone at the family's key.
    Del(Family, Key),
}

/// The operations of one write, in order.
#[derive(Drop, Clone)]
pub struct Batch {
    pub ops: List<Op>,
}

/// One file of an accepted request.
#[derive(Drop)]
pub struct Taken {
    pub family: Family,
    /// Whether it goes below all that is there.
    pub behind: bool,
    /// Its sequence number, or 0.
    pub number: u64,
    pub entries: Entries,
}

/// What an accepted call changes.
#[derive(Drop)]
pub enum Change {
    /// The operations take the next sequence numbers, in order.
    Write(Batch),
    /// A snapshot is taken; its id is the place of the change.
    Snap,
    /// The snapshot of this id is let go.
    Release(u64),
    /// An empty family joins, under the next id.
    Make(Family),
    /// The family goes, with all that it has.
    Drop(Family),
    /// The files are taken in, in order, as one change.
    Ingest(List<Taken>),
}
