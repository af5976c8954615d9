// Prints the words of a refusal, each after a space.
ghost use Rattle.std.specs.Prelude.{◌≡◌, ◌∷◌, [], ◌++◌, OnOk, OnErr, take, drop};
ghost use Rattle.std.specs.Fmt.{decimal};
ghost use Rattle.st_base.specs.Faults.{printed_table_fault};
ghost use Rattle.st_base.specs.Word.{word};
ghost use Rattle.st_model.specs.Line.{file_words, range_words, refusal_words, why_words};
ghost use Rattle.build_text.specs.Words.{Extends};
ghost use Rattle.cmd_text.specs.Replies.{refusal_text, spaced};

use crate::print::{push_next_number, push_next_plain, push_next_word};
use crate::print_fault::push_next_fault;
use st_base::{Bytes, Key, KeyRange, TableFault};
use st_model::{FileAt, Refusal, Why};
use std::alloc::AllocError;

// The refusal's number and its name.
fn head_of(refusal: &Refusal) -> &'static [u8]
    ensures { result.now ≡ spaced (take 2 (refusal_words refusal.now)) }
{
    match refusal {
        Refusal::EmptyRequest => b" 1 EmptyRequest",
        Refusal::NoFiles(_) => b" 2 NoFiles",
        Refusal::FamilyTwice(_) => b" 3 FamilyTwice",
        Refusal::TooManyFiles => b" 4 TooManyFiles",
        Refusal::FileMissing(_) => b" 5 FileMissing",
        Refusal::InputFault(_) => b" 6 InputFault",
        Refusal::BadTable(_, _) => b" 7 BadTable",
        Refusal::NoEntry(_) => b" 8 NoEntry",
        Refusal::FilesMeet(_, _) => b" 9 FilesMeet",
        Refusal::Stopped => b" 10 Stopped",
        Refusal::UnknownFamily(_) => b" 11 UnknownFamily",
        Refusal::BehindNotEnabled(_) => b" 12 BehindNotEnabled",
        Refusal::SnapshotsLive(_, _) => b" 13 SnapshotsLive",
        Refusal::FlushNeeded(_, _) => b" 14 FlushNeeded",
        Refusal::BehindDoesNotFit(_, _) => b" 15 BehindDoesNotFit",
        Refusal::NeedsSequence(_, _) => b" 16 NeedsSequence",
        Refusal::NotLastLevel(_, _, _) => b" 17 NotLastLevel",
        Refusal::NumbersSpent => b" 18 NumbersSpent",
        Refusal::StoreFull => b" 19 StoreFull",
        Refusal::DiskFault => b" 20 DiskFault",
        Refusal::FamilyExists(_) => b" 21 FamilyExists",
        Refusal::DefaultStays => b" 22 DefaultStays",
        Refusal::FamiliesFull => b" 23 FamiliesFull",
        Refusal::SnapshotsFull => b" 24 SnapshotsFull",
        Refusal::SnapshotGone(_) => b" 27 SnapshotGone",
        Refusal::OutOfMemory => b"",
    }
}

#[tactic(auto, using(crate::proofs::Printing::spaced_then))]
fn push_two_numbers(out: &mut Bytes, first: u64, second: u64) -> Result<(), AllocError>
    ensures ok { OnOk result (out.new ≡ out.old ++ spaced (decimal first ∷ decimal second ∷ [])) }
    ensures err { OnErr result (Extends out.old out.new) }
{
    push_next_number(out, first)?;
    push_next_number(out, second)
}

fn push_file(out: &mut Bytes, at: FileAt) -> Result<(), AllocError>
    ensures ok { OnOk result (out.new ≡ out.old ++ spaced (file_words at)) }
    ensures err { OnErr result (Extends out.old out.new) }
{
    push_two_numbers(out, u64::from(at.arg), u64::from(at.file))
}

#[tactic(auto, using(crate::proofs::Printing::spaced_then))]
fn push_range(out: &mut Bytes, range: &KeyRange) -> Result<(), AllocError>
    ensures ok { OnOk result (out.new ≡ out.old ++ spaced (range_words range.now)) }
    ensures err { OnErr result (Extends out.old out.new) }
{
    push_next_word(out, range.first.as_bytes())?;
    push_next_word(out, range.last.as_bytes())
}

// Appends the words that follow the cause's name, each after a space.
fn push_why_arguments(out: &mut Bytes, why: &Why) -> Result<(), AllocError>
    ensures ok { OnOk result (out.new ≡ out.old ++ spaced (drop 1 (why_words why.now))) }
    ensures err { OnErr result (Extends out.old out.new) }
{
    match why {
        Why::Key(key) => push_next_word(out, key.as_bytes()),
        Why::Running(range) => push_range(out, range),
        Why::Snapshot(number) => push_next_number(out, *number),
        Why::Files(i, j) => push_two_numbers(out, u64::from(*i), u64::from(*j)),
        Why::Meets(range) => push_range(out, range),
    }
}

fn name_of(why: &Why) -> &'static [u8]
    ensures { result.now ≡ spaced (take 1 (why_words why.now)) }
{
    match why {
        Why::Key(_) => b" Key",
        Why::Running(_) => b" Running",
        Why::Snapshot(_) => b" Snapshot",
        Why::Files(_, _) => b" Files",
        Why::Meets(_) => b" Meets",
    }
}

fn push_why(out: &mut Bytes, why: &Why) -> Result<(), AllocError>
    ensures ok { OnOk result (out.new ≡ out.old ++ spaced (why_words why.now)) }
    ensures err { OnErr result (Extends out.old out.new) }
{
    out.extend_from_slice(name_of(why))?;
    push_why_arguments(out, why)
}

#[tactic(auto, using(crate::proofs::Printing::spaced_then))]
fn push_bad_table(out: &mut Bytes, at: FileAt, fault: &TableFault) -> Result<(), AllocError>
    ensures ok { OnOk result (out.new ≡ out.old ++ spaced (file_words at ++ printed_table_fault fault.now ∷ [])) }
    ensures err { OnErr result (Extends out.old out.new) }
{
    push_file(out, at)?;
    push_next_fault(out, fault)
}

#[tactic(auto, using(crate::proofs::Printing::spaced_then))]
fn push_file_and_number(out: &mut Bytes, at: FileAt, number: u32) -> Result<(), AllocError>
    ensures ok { OnOk result (out.new ≡ out.old ++ spaced (file_words at ++ decimal number ∷ [])) }
    ensures err { OnErr result (Extends out.old out.new) }
{
    push_file(out, at)?;
    push_next_number(out, u64::from(number))
}

#[tactic(auto, using(crate::proofs::Printing::spaced_then))]
fn push_file_and_key(out: &mut Bytes, at: FileAt, key: &Key) -> Result<(), AllocError>
    ensures ok { OnOk result (out.new ≡ out.old ++ spaced (file_words at ++ word key.now ∷ [])) }
    ensures err { OnErr result (Extends out.old out.new) }
{
    push_file(out, at)?;
    push_next_word(out, key.as_bytes())
}

#[tactic(auto, using(crate::proofs::Printing::spaced_then))]
fn push_file_and_range(out: &mut Bytes, at: FileAt, range: &KeyRange) -> Result<(), AllocError>
    ensures ok { OnOk result (out.new ≡ out.old ++ spaced (file_words at ++ range_words range.now)) }
    ensures err { OnErr result (Extends out.old out.new) }
{
    push_file(out, at)?;
    push_range(out, range)
}

#[tactic(auto, using(crate::proofs::Printing::spaced_then))]
fn push_file_and_why(out: &mut Bytes, at: FileAt, why: &Why) -> Result<(), AllocError>
    ensures ok { OnOk result (out.new ≡ out.old ++ spaced (file_words at ++ why_words why.now)) }
    ensures err { OnErr result (Extends out.old out.new) }
{
    push_file(out, at)?;
    push_why(out, why)
}

#[tactic(auto, using(crate::proofs::Printing::spaced_then))]
fn push_level_and_why(out: &mut Bytes, at: FileAt, level: u8, why: &Why) -> Result<(), AllocError>
    ensures ok { OnOk result (out.new ≡ out.old ++ spaced (file_words at ++ decimal level ∷ why_words why.now)) }
    ensures err { OnErr result (Extends out.old out.new) }
{
    push_file_and_number(out, at, u32::from(level))?;
    push_why(out, why)
}

// Appends the refusal's arguments, each after a space.
fn push_arguments(out: &mut Bytes, refusal: &Refusal) -> Result<(), AllocError>
    ensures ok { OnOk result (out.new ≡ out.old ++ spaced (drop 2 (refusal_words refusal.now))) }
    ensures err { OnErr result (Extends out.old out.new) }
{
    match refusal {
        Refusal::NoFiles(argument) => push_next_number(out, u64::from(*argument)),
        Refusal::FamilyTwice(argument) => push_next_number(out, u64::from(*argument)),
        Refusal::FileMissing(at) => push_file(out, *at),
        Refusal::InputFault(at) => push_file(out, *at),
        Refusal::BadTable(at, fault) => push_bad_table(out, *at, fault),
        Refusal::NoEntry(at) => push_file(out, *at),
        Refusal::FilesMeet(at, file) => push_file_and_number(out, *at, *file),
        Refusal::UnknownFamily(name) => push_next_plain(out, name.as_bytes()),
        Refusal::BehindNotEnabled(argument) => push_next_number(out, u64::from(*argument)),
        Refusal::SnapshotsLive(argument, number) => {
            push_two_numbers(out, u64::from(*argument), *number)
        }
        Refusal::FlushNeeded(at, key) => push_file_and_key(out, *at, key),
        Refusal::BehindDoesNotFit(at, range) => push_file_and_range(out, *at, range),
        Refusal::NeedsSequence(at, why) => push_file_and_why(out, *at, why),
        Refusal::NotLastLevel(at, level, why) => push_level_and_why(out, *at, *level, why),
        Refusal::FamilyExists(name) => push_next_plain(out, name.as_bytes()),
        Refusal::SnapshotGone(id) => push_next_number(out, *id),
        Refusal::EmptyRequest => Ok(()),
        Refusal::TooManyFiles => Ok(()),
        Refusal::Stopped => Ok(()),
        Refusal::NumbersSpent => Ok(()),
        Refusal::StoreFull => Ok(()),
        Refusal::DiskFault => Ok(()),
        Refusal::DefaultStays => Ok(()),
        Refusal::FamiliesFull => Ok(()),
        Refusal::SnapshotsFull => Ok(()),
        Refusal::OutOfMemory => Ok(()),
    }
}

// Appends the refusal's words, each after a space.
#[tactic(auto, using(crate::proofs::Printing::refusal_parts))]
pub(crate) fn push_refusal(out: &mut Bytes, refusal: &Refusal) -> Result<(), AllocError>
    ensures ok { OnOk result (out.new ≡ out.old ++ refusal_text refusal.now) }
    ensures err { OnErr result (Extends out.old out.new) }
{
    out.extend_from_slice(head_of(refusal))?;
    push_arguments(out, refusal)
}
