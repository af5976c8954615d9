use crate::change::Batch;
use crate::reply::Reply;
use crate::request::IngestExternalFileArg;
use crate::state::Snapshot;
use st_base::{Entries, Family, Key, List, TableFault};
use std::alloc::AllocError;

/// The name of a snapshot, which has the letters and the length of a family's name.
pub type SnapName = Family;

/// A command of a client file.
#[derive(Drop)]
pub enum Command {
    /// The operations are one write.
    Write(Batch),
    /// What the family's key reads now.
    Get(Family, Key),
    /// What it reads at the snapshot.
    GetAt(SnapName, Family, Key),
    /// What several keys read, in one state.
    View(List<(Family, Key)>),
    /// The pairs from the first key to the last now, at most so many.
    Scan(Family, Key, Key, u32),
    /// The pairs at the snapshot.
    ScanAt(SnapName, Family, Key, Key, u32),
    /// Takes a snapshot.
    Snap(SnapName),
    /// Lets the snapshot go.
    Release(SnapName),
    /// Makes a family.
    MakeFamily(Family),
    /// Drops a family.
    DropFamily(Family),
    /// Moves the family's memtables into level 0.
    Flush(Family),
    /// Merges the family's tables into the lowest level.
    Compact(Family),
    /// Takes the files of a request in.
    Ingest(List<IngestExternalFileArg>),
    /// Goes on once that client has answered that command of its own, both counted from 1.
    Await { client: u32, command: u32 },
}

impl Clone for Command {
    ghost use Rattle.std.specs.Prelude.{◌≡◌};

    ghost is_clone = { λ command copy. copy ≡ command };

    fn clone(&self) -> Result<Command, AllocError> {
        match self {
            Command::Write(batch) => Ok(Command::Write(batch.clone()?)),
            Command::Get(family, key) => Ok(Command::Get(family.clone()?, key.clone()?)),
            Command::GetAt(name, family, key) => Ok(Command::GetAt(
                name.clone()?,
                family.clone()?,
                key.clone()?,
            )),
            Command::View(reads) => Ok(Command::View(reads.clone()?)),
            Command::Scan(family, first, last, limit) => Ok(Command::Scan(
                family.clone()?,
                first.clone()?,
                last.clone()?,
                *limit,
            )),
            Command::ScanAt(name, family, first, last, limit) => Ok(Command::ScanAt(
                name.clone()?,
                family.clone()?,
                first.clone()?,
                last.clone()?,
                *limit,
            )),
            Command::Snap(name) => Ok(Command::Snap(name.clone()?)),
            Command::Release(name) => Ok(Command::Release(name.clone()?)),
            Command::MakeFamily(name) => Ok(Command::MakeFamily(name.clone()?)),
            Command::DropFamily(name) => Ok(Command::DropFamily(name.clone()?)),
            Command::Flush(name) => Ok(Command::Flush(name.clone()?)),
            Command::Compact(name) => Ok(Command::Compact(name.clone()?)),
            Command::Ingest(arguments) => Ok(Command::Ingest(arguments.clone()?)),
            Command::Await { client, command } => Ok(Command::Await {
                client: *client,
                command: *command,
            }),
        }
    }
}

/// What the inputs hold under a name that a request gives.
#[derive(Drop)]
pub enum FileSeen {
    /// No file has the name.
    Missing,
    /// The file is no external table, or the request's files up to this one are too large together.
    Bad(TableFault),
    /// The file is an external table of these entries.
    Table(Entries),
}

impl Clone for FileSeen {
    ghost use Rattle.std.specs.Prelude.{◌≡◌};

    ghost is_clone = { λ seen copy. copy ≡ seen };

    fn clone(&self) -> Result<FileSeen, AllocError> {
        match self {
            FileSeen::Missing => Ok(FileSeen::Missing),
            FileSeen::Bad(fault) => Ok(FileSeen::Bad(*fault)),
            FileSeen::Table(entries) => Ok(FileSeen::Table(entries.clone()?)),
        }
    }
}

/// A command with what it names: the files as they are seen, in order, and the snapshot.
#[derive(Drop)]
pub struct Asked {
    pub command: Command,
    pub files: List<FileSeen>,
    pub snapshot: Option<Snapshot>,
}

impl Clone for Asked {
    ghost use Rattle.std.specs.Prelude.{◌≡◌};

    ghost is_clone = { λ asked copy. copy ≡ asked };

    fn clone(&self) -> Result<Asked, AllocError> {
        Ok(Asked {
            command: self.command.clone()?,
            files: self.files.clone()?,
            snapshot: self.snapshot,
        })
    }
}

/// A command with its answer: the place that is printed, and the reply.
#[derive(Drop)]
pub struct Call {
    pub asked: Asked,
    pub place: u64,
    pub reply: Reply,
}

impl Clone for Call {
    ghost use Rattle.std.specs.Prelude.{◌≡◌};

    ghost is_clone = { λ call copy. copy ≡ call };

    fn clone(&self) -> Result<Call, AllocError> {
        Ok(Call {
            asked: self.asked.clone()?,
            place: self.place,
            reply: self.reply.clone()?,
        })
    }
}

/// The calls of one client, in order: a transcript.
pub type Calls = List<Call>;
