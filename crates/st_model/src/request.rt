use st_base::{Family, List, Name};

/// How the files of an argument are taken in.
#[derive(Clone, Copy, PartialEq, Drop)]
pub struct IngestExternalFileOptions {
    /// Live snapshots don't see the files.
    pub snapshot_consistency: bool,
    /// A file may take a sequence number.
    pub allow_global_seqno: bool,
    /// A memtable that a file meets may be flushed first.
    pub allow_blocking_flush: bool,
    /// The files go below all that is there, into the last level.
    pub ingest_behind: bool,
    /// A file that can't go to the lowest level is refused.
    pub fail_if_not_bottommost_level: bool,
}

/// The files that one family takes in.
#[derive(Drop, PartialEq, Clone)]
pub struct IngestExternalFileArg {
    pub family: Family,
    /// The names of the files, in order.
    pub files: List<Name>,
    pub options: IngestExternalFileOptions,
}
