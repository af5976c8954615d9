ghost use Rattle.std.specs.Prelude.{◌≡◌, ℕ, ◌+◌, ◌-◌, ◌<◌, ◌++◌, ◌∷◌, [], IfOk, OnOk, length, take, drop, map, filter, filter_map};
ghost use Rattle.std.specs.Prelude.{nat_lt, ◌||◌, if◌then◌else◌, flat_map, find, List as Items, Some, Option};
ghost use Rattle.std.specs.Option.{option_copied, option_map};
ghost use Rattle.std.specs.List.{list_any, position};
ghost use Rattle.st_base.specs.Bytes.{same};
ghost use Rattle.st_base.specs.Range.{meet};
ghost use Rattle.st_base.specs.declared.entry.KeyRange.{KeyRange};
ghost use Rattle.st_model.specs.declared.refusal.Refusal.TheVariants as refused;
ghost use Rattle.st_model.specs.Answer.{unknown_families};
ghost use Rattle.st_model.specs.Early.{is_empty};
ghost use Rattle.st_model.specs.Refusals.{has_no_files, repeated, shape_refusals, seen_refusals, file_refusals};
ghost use Rattle.st_model.specs.Refusals.{meeting_refusal, meeting_refusals, lowest_live, keeps_snapshots};
ghost use Rattle.st_model.specs.Refusals.{behind_refusals, ranges_in, fit_refusal, fit_refusals, exact_refusals};
ghost use Rattle.st_model.specs.Refusals.{has_too_many, inner_refusals};
ghost use Rattle.st_model.specs.Request.{files_named, asks_behind, range_of_file, entries_seen, meeting, meeting_after};
ghost use Rattle.st_model.specs.State.{most_request_files};
ghost use Rattle.plain_request.specs.Parts.{no_files, twice, not_enabled, keeping, unfit, unfit_files};

use crate::request::{SeenArgument, SeenFile};
use plain_model::{at_most, family_of, range_of, sorted_ranges};
use st_base::{Entry, Family, KeyRange, List, REQUEST_ARGUMENTS, REQUEST_FILES};
use st_model::{FileAt, FileSeen, ModelState, Refusal};
use std::alloc::{AllocError, Global};

/// The refusals, of which some hold of a request.
pub type Refusals = List<Refusal>;

/// Puts the refusals at the end.
pub fn append(all: &mut Refusals, more: Refusals) -> Result<(), AllocError>
    ensures { OnOk result (all.new ≡ all.old ++ more) }
{
    for refusal in more.into_vec() {
        all.push(refusal)?;
    }
    Ok(())
}

// ---- the request's shape

// Of each argument that names no file, its refusal.
fn no_files(alloc: Global, request: &[SeenArgument]) -> Result<Refusals, AllocError>
    ensures { IfOk result (λ all. all ≡ no_files request.now) }
{
    let mut all = List::new(alloc);
    for argument in request {
        if argument.named == 0 {
            all.push(Refusal::NoFiles(argument.number))?;
        }
    }
    Ok(all)
}

// Whether the family is among the named ones.
pub fn is_named(named: &[Family], name: &Family) -> bool
    ensures { result ≡ list_any (same name.now) named.now }
{
    named.iter().any(|other| name == other)
}

// Of each argument that names an earlier one's family, its refusal.
fn twice(alloc: Global, request: &[SeenArgument]) -> Result<Refusals, AllocError>
    ensures { IfOk result (λ all. all ≡ twice request.now) }
{
    let mut all = List::new(alloc);
    let mut named = Vec::new(alloc);
    for argument in request {
        if is_named(named.as_slice(), &argument.family) {
            all.push(Refusal::FamilyTwice(argument.number))?;
        }
        named.insert(0, argument.family.clone()?)?;
    }
    Ok(all)
}

// Whether the arguments name more files than a request may have.
fn has_many_files(request: &[SeenArgument]) -> bool
    ensures { result ≡ nat_lt most_request_files (files_named request.now) }
{
    let mut left = REQUEST_FILES;
    for argument in request {
        if argument.named > left {
            return true;
        }
        left -= argument.named;
    }
    false
}

// Whether there are too many arguments or files.
fn has_too_many(request: &[SeenArgument]) -> bool
    ensures { result ≡ has_too_many request.now }
{
    request.len() > REQUEST_ARGUMENTS || has_many_files(request)
}

// The refusals by the request's shape alone.
fn shape_refusals(alloc: Global, request: &[SeenArgument]) -> Result<Refusals, AllocError>
    ensures { IfOk result (λ all. all ≡ shape_refusals request.now) }
{
    let mut all = List::new(alloc);
    if request.is_empty() {
        all.push(Refusal::EmptyRequest)?;
    }
    append(&mut all, first_of(no_files(alloc, request)?))?;
    append(&mut all, first_of(twice(alloc, request)?))?;
    if has_too_many(request) {
        all.push(Refusal::TooManyFiles)?;
    }
    Ok(all)
}

// The first of the refusals alone.
fn first_of(mut all: Refusals) -> Refusals
    ensures { result ≡ take 1 all }
{
    all.truncate(1);
    all
}

// ---- its files

// Puts what the file's bytes are refused for at the end.
fn push_seen(all: &mut Refusals, file: &SeenFile) -> Result<(), AllocError>
    ensures { OnOk result (all.new ≡ all.old ++ seen_refusals file.now.at file.now.seen) }
{
    match &file.seen {
        FileSeen::Missing => all.push(Refusal::FileMissing(file.at)),
        FileSeen::Bad(fault) => all.push(Refusal::BadTable(file.at, *fault)),
        FileSeen::Table(entries) => {
            if entries.is_empty() {
                all.push(Refusal::NoEntry(file.at))?;
            }
            Ok(())
        }
    }
}

// Puts what the bytes of the files are refused for at the end.
fn push_all_seen(all: &mut Refusals, files: &[SeenFile]) -> Result<(), AllocError>
    ensures { OnOk result (all.new ≡ all.old ++ flat_map (λ file. seen_refusals file.at file.seen) files.now) }
{
    for file in files {
        push_seen(all, file)?;
    }
    Ok(())
}

// The refusals by the bytes of each file.
fn file_refusals(alloc: Global, request: &[SeenArgument]) -> Result<Refusals, AllocError>
    ensures { IfOk result (λ all. all ≡ file_refusals request.now) }
{
    let mut all = List::new(alloc);
    for argument in request {
        push_all_seen(&mut all, argument.files.as_slice())?;
    }
    Ok(all)
}

// ---- files that meet

/// The entries of a file as it is seen: none, where it is no table.
pub fn entries_of(seen: &FileSeen) -> &[Entry]
    ensures { result.now ≡ entries_seen seen.now }
{
    match seen {
        FileSeen::Table(entries) => entries.as_slice(),
        FileSeen::Missing => &[],
        FileSeen::Bad(_) => &[],
    }
}

/// The keys from the file's first to its last.
pub fn range_of_file(alloc: Global, file: &SeenFile) -> Result<KeyRange, AllocError>
    ensures { IfOk result (λ range. range ≡ range_of_file file.now) }
{
    range_of(alloc, entries_of(&file.seen))
}

// The ranges of files.
fn ranges_of(alloc: Global, files: &[SeenFile]) -> Result<List<KeyRange>, AllocError>
    ensures { IfOk result (λ ranges. ranges ≡ map range_of_file files.now) }
{
    let mut ranges = List::new(alloc);
    for file in files {
        ranges.push(range_of_file(alloc, file)?)?;
    }
    Ok(ranges)
}

/// Whether the ranges meet.
pub fn meet(one: &KeyRange, other: &KeyRange) -> bool
    ensures { result ≡ meet one.now other.now }
{
    at_most(&one.first, &other.last) && at_most(&other.first, &one.last)
}

// The place of the first range that meets this one.
fn place_met(ranges: &[KeyRange], range: &KeyRange) -> Option<usize>
    ensures { result ≡ position (meet range.now) ranges.now }
{
    ranges.iter().position(|other| meet(range, other))
}

/// The first two files of the argument that meet, counted from 1: by the second, then the first.
pub fn meeting(alloc: Global, argument: &SeenArgument) -> Result<Option<(u32, u32)>, AllocError>
    ensures { IfOk result (λ pair. pair ≡ meeting argument.now) }
{
    let ranges = ranges_of(alloc, argument.files.as_slice())?;
    Ok(first_meeting(ranges.as_slice()))
}

// The first two ranges that meet, by the second, then the first.
fn first_meeting(ranges: &[KeyRange]) -> Option<(u32, u32)>
    requires { length ranges.now < 4294967296 }
    ensures { result ≡ meeting_after [] ranges.now }
{
    for (index, range) in ranges.iter().enumerate() {
        if let Some(earlier) = place_met(&ranges[..index], range) {
            return Some((earlier as u32 + 1, index as u32 + 1));
        }
    }
    None
}

// What an argument whose files meet is refused for.
fn push_meeting(
    alloc: Global,
    all: &mut Refusals,
    argument: &SeenArgument,
) -> Result<(), AllocError>
    ensures { OnOk result (all.new ≡ all.old ++ filter_map meeting_refusal (argument.now ∷ [])) }
{
    if let Some((file, later)) = meeting(alloc, argument)? {
        let arg = argument.number;
        all.push(Refusal::FilesMeet(FileAt { arg, file }, later))?;
    }
    Ok(())
}

// The refusals of behind arguments whose files meet.
fn meeting_refusals(alloc: Global, request: &[SeenArgument]) -> Result<Refusals, AllocError>
    ensures { IfOk result (λ all. all ≡ meeting_refusals request.now) }
{
    let mut all = List::new(alloc);
    for argument in request {
        if argument.options.ingest_behind {
            push_meeting(alloc, &mut all, argument)?;
        }
    }
    Ok(first_of(all))
}

// ---- families

// The families that are named and aren't there.
fn unknown(
    alloc: Global,
    state: &ModelState,
    request: &[SeenArgument],
) -> Result<Refusals, AllocError>
    ensures { IfOk result (λ all. all
        ≡ unknown_families state.now (map (λ argument. argument.family) request.now)) }
{
    let mut all = List::new(alloc);
    for argument in request {
        if family_of(state, &argument.family).is_none() {
            all.push(Refusal::UnknownFamily(argument.family.clone()?))?;
        }
    }
    Ok(all)
}

// ---- arguments that go behind

// Of each argument that goes behind, its refusal in a store that takes none.
fn not_enabled(alloc: Global, request: &[SeenArgument]) -> Result<Refusals, AllocError>
    ensures { IfOk result (λ all. all ≡ not_enabled request.now) }
{
    let mut all = List::new(alloc);
    for argument in request {
        if argument.options.ingest_behind {
            all.push(Refusal::BehindNotEnabled(argument.number))?;
        }
    }
    Ok(all)
}

/// The lowest number of a live snapshot, or the last number, where none lives.
pub fn lowest_live(state: &ModelState) -> u64
    ensures { result ≡ lowest_live state.now }
{
    let mut least = state.last;
    for live in state.live.as_slice() {
        least = least.min(live.number);
    }
    least
}

// Of each argument that goes behind and keeps snapshots, its refusal while one lives.
fn keeping(alloc: Global, lowest: u64, request: &[SeenArgument]) -> Result<Refusals, AllocError>
    ensures { IfOk result (λ all. all ≡ keeping lowest request.now) }
{
    let mut all = List::new(alloc);
    for argument in request {
        if argument.options.ingest_behind && argument.options.snapshot_consistency {
            all.push(Refusal::SnapshotsLive(argument.number, lowest))?;
        }
    }
    Ok(all)
}

/// Whether no snapshot lives.
pub fn lives_none(state: &ModelState) -> bool
    ensures { result ≡ is_empty state.now.live }
{
    state.live.is_empty()
}

// The first refusal of a behind argument in a store that takes none.
fn store_refusal(
    alloc: Global,
    state: &ModelState,
    request: &[SeenArgument],
) -> Result<Refusals, AllocError>
    ensures { IfOk result (λ all. all ≡ (if state.now.behind then [] else take 1 (not_enabled request.now))) }
{
    if state.behind {
        return Ok(List::new(alloc));
    }
    Ok(first_of(not_enabled(alloc, request)?))
}

// The first refusal of a behind argument for a live snapshot.
fn live_refusal(
    alloc: Global,
    state: &ModelState,
    request: &[SeenArgument],
) -> Result<Refusals, AllocError>
    ensures { IfOk result (λ all. all
        ≡ (if is_empty state.now.live then [] else take 1 (keeping (lowest_live state.now) request.now))) }
{
    if lives_none(state) {
        return Ok(List::new(alloc));
    }
    Ok(first_of(keeping(alloc, lowest_live(state), request)?))
}

// The refusals of behind arguments by the store and its snapshots.
fn behind_refusals(
    alloc: Global,
    state: &ModelState,
    request: &[SeenArgument],
) -> Result<Refusals, AllocError>
    ensures { IfOk result (λ all. all ≡ behind_refusals state.now request.now) }
{
    let mut all = store_refusal(alloc, state, request)?;
    append(&mut all, live_refusal(alloc, state, request)?)?;
    Ok(all)
}

// The ranges of the family's files that were taken in behind, by their first keys.
fn ranges_in(alloc: Global, state: &ModelState, name: &Family) -> Result<List<KeyRange>, AllocError>
    ensures { IfOk result (λ ranges. ranges ≡ ranges_in state.now name.now) }
{
    match family_of(state, name) {
        Some(family) => sorted_ranges(alloc, family.ranges.as_slice()),
        None => Ok(List::new(alloc)),
    }
}

// The first range that meets this one.
fn range_met<'a>(ranges: &'a [KeyRange], range: &KeyRange) -> Option<&'a KeyRange>
    ensures { option_copied result ≡ find (meet range.now) ranges.now }
{
    ranges.iter().find(|other| meet(range, other))
}

// Puts the refusal of a file that meets one of the ranges at the end.
fn push_unfit(
    alloc: Global,
    all: &mut Refusals,
    ranges: &[KeyRange],
    file: &SeenFile,
) -> Result<(), AllocError>
    ensures { OnOk result (all.new ≡ all.old ++ filter_map (unfit ranges.now) (file.now ∷ [])) }
{
    let range = range_of_file(alloc, file)?;
    if let Some(other) = range_met(ranges, &range) {
        all.push(Refusal::BehindDoesNotFit(file.at, other.clone()?))?;
    }
    Ok(())
}

// Puts the refusals of the argument's files that meet files behind at the end.
fn push_all_unfit(
    alloc: Global,
    all: &mut Refusals,
    state: &ModelState,
    argument: &SeenArgument,
) -> Result<(), AllocError>
    ensures { OnOk result (all.new ≡ all.old ++ unfit_files state.now argument.now) }
{
    let ranges = ranges_in(alloc, state, &argument.family)?;
    for file in argument.files.as_slice() {
        push_unfit(alloc, all, ranges.as_slice(), file)?;
    }
    Ok(())
}

// The refusals of behind files that meet files behind.
fn fit_refusals(
    alloc: Global,
    state: &ModelState,
    request: &[SeenArgument],
) -> Result<Refusals, AllocError>
    ensures { IfOk result (λ all. all ≡ fit_refusals state.now request.now) }
{
    let mut all = List::new(alloc);
    for argument in request {
        if argument.options.ingest_behind {
            push_all_unfit(alloc, &mut all, state, argument)?;
        }
    }
    Ok(first_of(all))
}

// The refusals by the request's files, families and options.
fn inner_refusals(
    alloc: Global,
    state: &ModelState,
    request: &[SeenArgument],
) -> Result<Refusals, AllocError>
    ensures { IfOk result (λ all. all ≡ inner_refusals state.now request.now) }
{
    let mut all = file_refusals(alloc, request)?;
    append(&mut all, meeting_refusals(alloc, request)?)?;
    append(&mut all, first_of(unknown(alloc, state, request)?))?;
    append(&mut all, behind_refusals(alloc, state, request)?)?;
    append(&mut all, fit_refusals(alloc, state, request)?)?;
    Ok(all)
}

/// The refusals that hold exactly of a request, in their order: where its shape refuses it, these alone.
pub fn exact_refusals(
    alloc: Global,
    state: &ModelState,
    request: &[SeenArgument],
) -> Result<Refusals, AllocError>
    ensures { IfOk result (λ all. all ≡ exact_refusals state.now request.now) }
{
    let shape = shape_refusals(alloc, request)?;
    if shape.is_empty() {
        inner_refusals(alloc, state, request)
    } else {
        Ok(shape)
    }
}
