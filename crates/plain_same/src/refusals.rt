ghost use Rattle.std.specs.Prelude.{◌≡◌, IsTrue, ◌↔◌};
ghost use Rattle.st_model.specs.declared.refusal.Refusal.TheVariants as refused;

use crate::faults::{same_fault, same_why};
use st_base::{Family, Key, KeyRange, TableFault};
use st_model::{FileAt, Refusal, Why};

fn is_no_files(refusal: &Refusal, argument: u32) -> bool
    ensures { IsTrue result ↔ (refusal.now ≡ refused.NoFiles argument) }
{
    match refusal {
        Refusal::NoFiles(other) => *other == argument,
        _ => false,
    }
}

fn is_family_twice(refusal: &Refusal, argument: u32) -> bool
    ensures { IsTrue result ↔ (refusal.now ≡ refused.FamilyTwice argument) }
{
    match refusal {
        Refusal::FamilyTwice(other) => *other == argument,
        _ => false,
    }
}

fn is_file_missing(refusal: &Refusal, at: FileAt) -> bool
    ensures { IsTrue result ↔ (refusal.now ≡ refused.FileMissing at) }
{
    match refusal {
        Refusal::FileMissing(other) => *other == at,
        _ => false,
    }
}

fn is_input_fault(refusal: &Refusal, at: FileAt) -> bool
    ensures { IsTrue result ↔ (refusal.now ≡ refused.InputFault at) }
{
    match refusal {
        Refusal::InputFault(other) => *other == at,
        _ => false,
    }
}

fn is_bad_table(refusal: &Refusal, at: FileAt, fault: &TableFault) -> bool
    ensures { IsTrue result ↔ (refusal.now ≡ refused.BadTable at fault.now) }
{
    match refusal {
        Refusal::BadTable(other_at, other_fault) => *other_at == at
            && same_fault(other_fault, fault),
        _ => false,
    }
}

fn is_no_entry(refusal: &Refusal, at: FileAt) -> bool
    ensures { IsTrue result ↔ (refusal.now ≡ refused.NoEntry at) }
{
    match refusal {
        Refusal::NoEntry(other) => *other == at,
        _ => false,
    }
}

fn is_files_meet(refusal: &Refusal, at: FileAt, file: u32) -> bool
    ensures { IsTrue result ↔ (refusal.now ≡ refused.FilesMeet at file) }
{
    match refusal {
        Refusal::FilesMeet(other_at, other_file) => *other_at == at && *other_file == file,
        _ => false,
    }
}

fn is_unknown_family(refusal: &Refusal, name: &Family) -> bool
    ensures { IsTrue result ↔ (refusal.now ≡ refused.UnknownFamily name.now) }
{
    match refusal {
        Refusal::UnknownFamily(other) => other == name,
        _ => false,
    }
}

fn is_behind_not_enabled(refusal: &Refusal, argument: u32) -> bool
    ensures { IsTrue result ↔ (refusal.now ≡ refused.BehindNotEnabled argument) }
{
    match refusal {
        Refusal::BehindNotEnabled(other) => *other == argument,
        _ => false,
    }
}

fn is_snapshots_live(refusal: &Refusal, argument: u32, number: u64) -> bool
    ensures { IsTrue result ↔ (refusal.now ≡ refused.SnapshotsLive argument number) }
{
    match refusal {
        Refusal::SnapshotsLive(other_argument, other_number) => *other_argument == argument
            && *other_number == number,
        _ => false,
    }
}

fn is_flush_needed(refusal: &Refusal, at: FileAt, key: &Key) -> bool
    ensures { IsTrue result ↔ (refusal.now ≡ refused.FlushNeeded at key.now) }
{
    match refusal {
        Refusal::FlushNeeded(other_at, other_key) => *other_at == at && other_key == key,
        _ => false,
    }
}

fn is_behind_does_not_fit(refusal: &Refusal, at: FileAt, range: &KeyRange) -> bool
    ensures { IsTrue result ↔ (refusal.now ≡ refused.BehindDoesNotFit at range.now) }
{
    match refusal {
        Refusal::BehindDoesNotFit(other_at, other_range) => *other_at == at && other_range == range,
        _ => false,
    }
}

fn is_needs_sequence(refusal: &Refusal, at: FileAt, why: &Why) -> bool
    ensures { IsTrue result ↔ (refusal.now ≡ refused.NeedsSequence at why.now) }
{
    match refusal {
        Refusal::NeedsSequence(other_at, other_why) => *other_at == at && same_why(other_why, why),
        _ => false,
    }
}

fn is_not_last_level(refusal: &Refusal, at: FileAt, level: u8, why: &Why) -> bool
    ensures { IsTrue result ↔ (refusal.now ≡ refused.NotLastLevel at level why.now) }
{
    match refusal {
        Refusal::NotLastLevel(other_at, other_level, other_why) => *other_at == at
            && *other_level == level
            && same_why(other_why, why),
        _ => false,
    }
}

fn is_family_exists(refusal: &Refusal, name: &Family) -> bool
    ensures { IsTrue result ↔ (refusal.now ≡ refused.FamilyExists name.now) }
{
    match refusal {
        Refusal::FamilyExists(other) => other == name,
        _ => false,
    }
}

fn is_snapshot_gone(refusal: &Refusal, id: u64) -> bool
    ensures { IsTrue result ↔ (refusal.now ≡ refused.SnapshotGone id) }
{
    match refusal {
        Refusal::SnapshotGone(other) => *other == id,
        _ => false,
    }
}

/// Whether the refusals are the same.
pub fn same_refusal(one: &Refusal, other: &Refusal) -> bool
    ensures { IsTrue result ↔ (one.now ≡ other.now) }
{
    match one {
        Refusal::NoFiles(argument) => is_no_files(other, *argument),
        Refusal::FamilyTwice(argument) => is_family_twice(other, *argument),
        Refusal::FileMissing(at) => is_file_missing(other, *at),
        Refusal::InputFault(at) => is_input_fault(other, *at),
        Refusal::BadTable(at, fault) => is_bad_table(other, *at, fault),
        Refusal::NoEntry(at) => is_no_entry(other, *at),
        Refusal::FilesMeet(at, file) => is_files_meet(other, *at, *file),
        Refusal::UnknownFamily(name) => is_unknown_family(other, name),
        Refusal::BehindNotEnabled(argument) => is_behind_not_enabled(other, *argument),
        Refusal::SnapshotsLive(argument, number) => is_snapshots_live(other, *argument, *number),
        Refusal::FlushNeeded(at, key) => is_flush_needed(other, *at, key),
        Refusal::BehindDoesNotFit(at, range) => is_behind_does_not_fit(other, *at, range),
        Refusal::NeedsSequence(at, why) => is_needs_sequence(other, *at, why),
        Refusal::NotLastLevel(at, level, why) => is_not_last_level(other, *at, *level, why),
        Refusal::FamilyExists(name) => is_family_exists(other, name),
        Refusal::SnapshotGone(id) => is_snapshot_gone(other, *id),
        Refusal::EmptyRequest => matches!(other, Refusal::EmptyRequest),
        Refusal::TooManyFiles => matches!(other, Refusal::TooManyFiles),
        Refusal::Stopped => matches!(other, Refusal::Stopped),
        Refusal::NumbersSpent => matches!(other, Refusal::NumbersSpent),
        Refusal::StoreFull => matches!(other, Refusal::StoreFull),
        Refusal::DiskFault => matches!(other, Refusal::DiskFault),
        Refusal::DefaultStays => matches!(other, Refusal::DefaultStays),
        Refusal::FamiliesFull => matches!(other, Refusal::FamiliesFull),
        Refusal::SnapshotsFull => matches!(other, Refusal::SnapshotsFull),
        Refusal::OutOfMemory => matches!(other, Refusal::OutOfMemory),
    }
}
