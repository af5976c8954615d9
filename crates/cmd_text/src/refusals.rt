// Reads the refusal of a reply's line, by its number.
ghost use Rattle.std.specs.Prelude.{◌≡◌};
ghost use Rattle.cmd_text.specs.Commands.{Gives};
ghost use Rattle.cmd_text.specs.Readings.{bad_table_of, file_refusal, long_refusal, not_last_level_of, plain_refusal};
ghost use Rattle.cmd_text.specs.Readings.{refusal_at, refusal_of, snapshots_live_of, why_named, why_of};

use crate::fault::ParseFault;
use crate::lines::is;
use crate::parts::{
    next_family_name, next_file, next_key, next_range, next_u8, next_u32, next_u64,
};
use crate::table_faults::read_table_fault;
use build_text::Words;
use st_model::{FileAt, Refusal, Why};
use std::alloc::Global;

// The cause of which these are the words.
#[tactic(auto, unfolding(crate::specs::Readings::why_named))]
fn read_why(alloc: Global, mut words: Words<'_>) -> Result<Why, ParseFault>
    ensures { Gives result (why_of words.entry) }
{
    let name = words.next().ok_or(ParseFault::Mismatch)?;
    if is(name, b"Key") {
        return Ok(Why::Key(next_key(alloc, &mut words)?));
    }
    if is(name, b"Running") {
        return Ok(Why::Running(next_range(alloc, &mut words)?));
    }
    if is(name, b"Snapshot") {
        return Ok(Why::Snapshot(next_u64(&mut words)?));
    }
    if is(name, b"Files") {
        let files = next_file(&mut words)?;
        return Ok(Why::Files(files.arg, files.file));
    }
    if is(name, b"Meets") {
        return Ok(Why::Meets(next_range(alloc, &mut words)?));
    }
    Err(ParseFault::Mismatch)
}

// The refusal of that number, where it has no arguments.
#[tactic(auto, unfolding(crate::specs::Readings::plain_refusal))]
fn plain_refusal(number: u64) -> Option<Refusal>
    ensures { result ≡ plain_refusal number }
{
    match number {
        1 => Some(Refusal::EmptyRequest),
        4 => Some(Refusal::TooManyFiles),
        10 => Some(Refusal::Stopped),
        18 => Some(Refusal::NumbersSpent),
        19 => Some(Refusal::StoreFull),
        20 => Some(Refusal::DiskFault),
        22 => Some(Refusal::DefaultStays),
        23 => Some(Refusal::FamiliesFull),
        24 => Some(Refusal::SnapshotsFull),
        _ => None,
    }
}

#[tactic(auto, unfolding(crate::specs::Readings::snapshots_live_of))]
fn read_snapshots_live(mut words: Words<'_>) -> Result<Refusal, ParseFault>
    ensures { Gives result (snapshots_live_of words.entry) }
{
    let argument = next_u32(&mut words)?;
    let number = next_u64(&mut words)?;
    Ok(Refusal::SnapshotsLive(argument, number))
}

#[tactic(auto, unfolding(crate::specs::Readings::bad_table_of))]
fn read_bad_table(at: FileAt, words: Words<'_>) -> Result<Refusal, ParseFault>
    ensures { Gives result (bad_table_of at words.entry) }
{
    Ok(Refusal::BadTable(at, read_table_fault(words)?))
}

#[tactic(auto, unfolding(crate::specs::Readings::not_last_level_of))]
fn read_not_last_level(
    alloc: Global,
    at: FileAt,
    mut words: Words<'_>,
) -> Result<Refusal, ParseFault>
    ensures { Gives result (not_last_level_of at words.entry) }
{
    let level = next_u8(&mut words)?;
    Ok(Refusal::NotLastLevel(at, level, read_why(alloc, words)?))
}

// The refusal of that number, which names this file, with its other arguments.
#[tactic(auto, unfolding(crate::specs::Readings::refusal_at))]
fn read_refusal_at(
    alloc: Global,
    number: u64,
    at: FileAt,
    mut words: Words<'_>,
) -> Result<Refusal, ParseFault>
    ensures { Gives result (refusal_at number at words.entry) }
{
    match number {
        5 => Ok(Refusal::FileMissing(at)),
        6 => Ok(Refusal::InputFault(at)),
        7 => read_bad_table(at, words),
        8 => Ok(Refusal::NoEntry(at)),
        9 => Ok(Refusal::FilesMeet(at, next_u32(&mut words)?)),
        14 => Ok(Refusal::FlushNeeded(at, next_key(alloc, &mut words)?)),
        15 => Ok(Refusal::BehindDoesNotFit(at, next_range(alloc, &mut words)?)),
        16 => Ok(Refusal::NeedsSequence(at, read_why(alloc, words)?)),
        17 => read_not_last_level(alloc, at, words),
        _ => Err(ParseFault::Mismatch),
    }
}

// The refusal of that number, where it names a file.
#[tactic(auto, unfolding(crate::specs::Readings::file_refusal))]
fn read_file_refusal(
    alloc: Global,
    number: u64,
    mut words: Words<'_>,
) -> Result<Refusal, ParseFault>
    ensures { Gives result (file_refusal number words.entry) }
{
    let at = next_file(&mut words)?;
    read_refusal_at(alloc, number, at, words)
}

// The refusal of that number with its arguments.
#[tactic(auto, unfolding(crate::specs::Readings::long_refusal))]
fn read_long_refusal(
    alloc: Global,
    number: u64,
    mut words: Words<'_>,
) -> Result<Refusal, ParseFault>
    ensures { Gives result (long_refusal number words.entry) }
{
    match number {
        2 => Ok(Refusal::NoFiles(next_u32(&mut words)?)),
        3 => Ok(Refusal::FamilyTwice(next_u32(&mut words)?)),
        11 => Ok(Refusal::UnknownFamily(next_family_name(alloc, &mut words)?)),
        12 => Ok(Refusal::BehindNotEnabled(next_u32(&mut words)?)),
        13 => read_snapshots_live(words),
        21 => Ok(Refusal::FamilyExists(next_family_name(alloc, &mut words)?)),
        27 => Ok(Refusal::SnapshotGone(next_u64(&mut words)?)),
        _ => read_file_refusal(alloc, number, words),
    }
}

// The refusal of which these are the words.
#[tactic(auto, unfolding(crate::specs::Readings::refusal_of))]
pub(crate) fn read_refusal(alloc: Global, mut words: Words<'_>) -> Result<Refusal, ParseFault>
    ensures { Gives result (refusal_of words.entry) }
{
    let number = next_u64(&mut words)?;
    let _name = words.next().ok_or(ParseFault::Mismatch)?;
    match plain_refusal(number) {
        Some(refusal) => Ok(refusal),
        None => read_long_refusal(alloc, number, words),
    }
}
