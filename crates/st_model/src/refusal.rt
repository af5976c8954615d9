ghost use Rattle.std.specs.Prelude.{◌≡◌};
ghost use Rattle.st_model.specs.Refusal.{refusal_number};

use st_base::{Family, Key, KeyRange, TableFault};
use std::alloc::AllocError;

/// A file of a request: its argument, and its place there, both counted from 1.
#[derive(Clone, Copy, PartialEq, Drop)]
pub struct FileAt {
    pub arg: u32,
    pub file: u32,
}

/// Why a file needs a number, or can't go to the last level.
#[derive(Drop, Clone)]
pub enum Why {
    /// This key of the family lies in the file's range.
    Key(Key),
    /// The output of a running compaction has this range, which meets the file's.
    Running(KeyRange),
    /// A snapshot lives, and this is the lowest live number.
    Snapshot(u64),
    /// These two files of the argument meet.
    Files(u32, u32),
    /// A table of the lowest level has this range, which meets the file's.
    Meets(KeyRange),
}

/// Why a command is refused. Each refusal but the last has a number and a name, which a transcript prints. Arguments
/// and files are counted from 1.
#[derive(Drop)]
pub enum Refusal {
    /// 1: the request has no argument.
    EmptyRequest,
    /// 2: the first argument without files.
    NoFiles(u32),
    /// 3: the first argument that names an earlier one's family.
    FamilyTwice(u32),
    /// 4: the request has too many arguments or files.
    TooManyFiles,
    /// 5: the file isn't there.
    FileMissing(FileAt),
    /// 6: the inputs failed in this call.
    InputFault(FileAt),
    /// 7: the file is no external table, or the request's files are too large together.
    BadTable(FileAt, TableFault),
    /// 8: the table has no entry.
    NoEntry(FileAt),
    /// 9: two files of an argument that goes behind meet; the later is the number.
    FilesMeet(FileAt, u32),
    /// 10: a disk fault stopped the store before.
    Stopped,
    /// 11: the first family that is named and isn't there.
    UnknownFamily(Family),
    /// 12: the first argument that goes behind, in a store that takes none.
    BehindNotEnabled(u32),
    /// 13: the first argument that goes behind with snapshot consistency while a snapshot lives, and the lowest live
    /// number.
    SnapshotsLive(u32, u64),
    /// 14: a memtable has this key, which lies in the range of a file that may not wait for a flush.
    FlushNeeded(FileAt, Key),
    /// 15: a table of the last level has this range, which a file that goes behind meets.
    BehindDoesNotFit(FileAt, KeyRange),
    /// 16: the file needs a sequence number, and may not take one.
    NeedsSequence(FileAt, Why),
    /// 17: the file would go to this level, which isn't the lowest.
    NotLastLevel(FileAt, u8, Why),
    /// 18: sequence numbers, places or family ids are spent.
    NumbersSpent,
    /// 19: the store's charge and the change's own would pass the capacity.
    StoreFull,
    /// 20: the disk failed in this call.
    DiskFault,
    /// 21: the family to make is there.
    FamilyExists(Family),
    /// 22: `default` is to be dropped.
    DefaultStays,
    /// 23: the store has all the families that it may have.
    FamiliesFull,
    /// 24: all the snapshots live that may.
    SnapshotsFull,
    /// 27: the snapshot of this id doesn't live.
    SnapshotGone(u64),
    /// Memory is wanted. It stands in no transcript.
    OutOfMemory,
}

impl Refusal {
    /// The number that a transcript prints: `None` exactly for want of memory.
    pub fn refusal_number(&self) -> Option<u32>
        ensures { result ≡ refusal_number self.now }
    {
        match self {
            Refusal::EmptyRequest => Some(1),
            Refusal::NoFiles(_) => Some(2),
            Refusal::FamilyTwice(_) => Some(3),
            Refusal::TooManyFiles => Some(4),
            Refusal::FileMissing(_) => Some(5),
            Refusal::InputFault(_) => Some(6),
            Refusal::BadTable(_, _) => Some(7),
            Refusal::NoEntry(_) => Some(8),
            Refusal::FilesMeet(_, _) => Some(9),
            Refusal::Stopped => Some(10),
            Refusal::UnknownFamily(_) => Some(11),
            Refusal::BehindNotEnabled(_) => Some(12),
            Refusal::SnapshotsLive(_, _) => Some(13),
            Refusal::FlushNeeded(_, _) => Some(14),
            Refusal::BehindDoesNotFit(_, _) => Some(15),
            Refusal::NeedsSequence(_, _) => Some(16),
            Refusal::NotLastLevel(_, _, _) => Some(17),
            Refusal::NumbersSpent => Some(18),
            Refusal::StoreFull => Some(19),
            Refusal::DiskFault => Some(20),
            Refusal::FamilyExists(_) => Some(21),
            Refusal::DefaultStays => Some(22),
            Refusal::FamiliesFull => Some(23),
            Refusal::SnapshotsFull => Some(24),
            Refusal::SnapshotGone(_) => Some(27),
            Refusal::OutOfMemory => None,
        }
    }
}

impl From<AllocError> for Refusal {
    ghost use Rattle.st_model.specs.declared.refusal.Refusal.TheVariants.{OutOfMemory};

    ghost from_gives = { λ _ refusal. refusal ≡ OutOfMemory };

    fn from(_: AllocError) -> Refusal {
        Refusal::OutOfMemory
    }
}

impl Clone for Refusal {
    ghost use Rattle.std.specs.Prelude.{◌≡◌};

    ghost is_clone = { λ refusal copy. copy ≡ refusal };

    fn clone(&self) -> Result<Refusal, AllocError> {
        match self {
            Refusal::EmptyRequest => Ok(Refusal::EmptyRequest),
            Refusal::NoFiles(argument) => Ok(Refusal::NoFiles(*argument)),
            Refusal::FamilyTwice(argument) => Ok(Refusal::FamilyTwice(*argument)),
            Refusal::TooManyFiles => Ok(Refusal::TooManyFiles),
            Refusal::FileMissing(at) => Ok(Refusal::FileMissing(*at)),
            Refusal::InputFault(at) => Ok(Refusal::InputFault(*at)),
            Refusal::BadTable(at, fault) => Ok(Refusal::BadTable(*at, *fault)),
            Refusal::NoEntry(at) => Ok(Refusal::NoEntry(*at)),
            Refusal::FilesMeet(at, file) => Ok(Refusal::FilesMeet(*at, *file)),
            Refusal::Stopped => Ok(Refusal::Stopped),
            Refusal::UnknownFamily(name) => Ok(Refusal::UnknownFamily(name.clone()?)),
            Refusal::BehindNotEnabled(argument) => Ok(Refusal::BehindNotEnabled(*argument)),
            Refusal::SnapshotsLive(argument, number) => Ok(Refusal::SnapshotsLive(
                *argument, *number,
            )),
            Refusal::FlushNeeded(at, key) => Ok(Refusal::FlushNeeded(*at, key.clone()?)),
            Refusal::BehindDoesNotFit(at, range) => Ok(Refusal::BehindDoesNotFit(
                *at,
                range.clone()?,
            )),
            Refusal::NeedsSequence(at, why) => Ok(Refusal::NeedsSequence(*at, why.clone()?)),
            Refusal::NotLastLevel(at, level, why) => Ok(Refusal::NotLastLevel(
                *at,
                *level,
                why.clone()?,
            )),
            Refusal::NumbersSpent => Ok(Refusal::NumbersSpent),
            Refusal::StoreFull => Ok(Refusal::StoreFull),
            Refusal::DiskFault => Ok(Refusal::DiskFault),
            Refusal::FamilyExists(name) => Ok(Refusal::FamilyExists(name.clone()?)),
            Refusal::DefaultStays => Ok(Refusal::DefaultStays),
            Refusal::FamiliesFull => Ok(Refusal::FamiliesFull),
            Refusal::SnapshotsFull => Ok(Refusal::SnapshotsFull),
            Refusal::SnapshotGone(id) => Ok(Refusal::SnapshotGone(*id)),
            Refusal::OutOfMemory => Ok(Refusal::OutOfMemory),
        }
    }
}
