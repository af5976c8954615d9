use st_base::List;
use st_model::Change;
use st_table::Table;
use st_version::State;
use std::sync::Arc;

/// The state of a store over its tables, as it is published.
pub type TableState = State<Arc<Table>>;

/// An accepted change of the history.
pub struct Accepted {
    /// The seat of the client that made it.
    pub seat: u64,
    /// What it changes.
    pub change: Change,
    /// Of an ingestion the numbers of the files in its receipt, in order; of other changes none.
    pub files: List<u64>,
}

/// An entry of the history. No value of it is made: the history stands in contracts alone.
pub enum HistoryEntry {
    /// The state that the history began with. It is the first entry.
    Opened(TableState),
    /// A change was accepted.
    Made(Accepted),
    /// The store stopped.
    Stopped,
}
