ghost use Rattle.std.specs.Prelude.{◌≡◌, ◌≤◌, ◌<◌, ◌++◌, ◌∷◌, [], ◌^◌, ◌-◌, IfOk, OnOk, IsTrue, IsSomeAnd, Contains, List as Items, None, Some, ℕ, ◌↔◌};
ghost use Rattle.std.specs.Prelude.{sum_by, nat_lt, if◌then◌else◌, find, flat_map, length, min, take, ◌==◌, ⊤};
ghost use Rattle.std.specs.Option.{option_copied, option_map};
ghost use Rattle.std.specs.List.{AllByRecursion as Each};
ghost use Rattle.st_base.specs.Entries.{add_charge};
ghost use Rattle.st_base.specs.Range.{is_in_range, keys_of};
ghost use Rattle.st_model.specs.declared.refusal.Why.TheVariants.{Key as KeyCause, Running};
ghost use Rattle.st_model.specs.Refusals.{exact_refusals, is_full, step_of, IsFirstRefusal, sure_cause, refused_cause};
ghost use Rattle.st_model.specs.Refusals.{first_refused, named_file, is_in, is_known_range, names_known, known_in};
ghost use Rattle.st_model.specs.Refusals.{was_written, may_need_flush, may_need_number, keys_before, may_be_too_high};
ghost use Rattle.st_model.specs.Refusals.{numbers_needed, are_numbers_spent, sure_refusals, MayNeedSequence};
ghost use Rattle.st_model.specs.Request.{argument_of, file_of_argument, all_files, request_charge, entries_of_file};
ghost use Rattle.st_base.specs.Range.{file_charge};
ghost use Rattle.st_model.specs.State.{lowest};
ghost use Rattle.plain_reply.specs.Tests.{needed};

use plain_model::{at_most, family_of, file_charge, has_key, parted, push_keys};
use plain_request::{
    Refusals, SeenArgument, SeenFile, entries_of, lives_none, lowest_live, meet, meeting,
    range_of_file,
};
use plain_same::{same_refusal, same_why};
use st_base::{Family, GREATEST_NUMBER, Key, KeyRange, List};
use st_model::{FileAt, ModelState, Refusal, Why};
use std::alloc::{AllocError, Global};

// ---- numbers and room

// The charge with those of the files.
fn with_files(charge: u64, files: &[SeenFile]) -> u64
    ensures { result ≡ add_charge charge (sum_by (λ file. file_charge (entries_of_file file)) files.now) }
{
    let mut sum = charge;
    for file in files {
        sum = sum.saturating_add(file_charge(entries_of(&file.seen)));
    }
    sum
}

// The charge with that of the request.
fn charge_with(charge: u64, request: &[SeenArgument]) -> u64
    ensures { result ≡ add_charge charge (request_charge request.now) }
{
    let mut sum = charge;
    for argument in request {
        sum = with_files(sum, argument.files.as_slice());
    }
    sum
}

/// Whether the capacity has no room for the request.
pub fn is_full(state: &ModelState, capacity: u64, request: &[SeenArgument]) -> bool
    ensures { result ≡ is_full state.now capacity request.now }
{
    charge_with(state.charge, request) > capacity
}

// How many numbers the argument can need.
fn needed(argument: &SeenArgument) -> u64
    ensures { result ≡ needed argument.now }
{
    if argument.options.ingest_behind {
        0
    } else {
        argument.named as u64
    }
}

// How many numbers the request can need, as far as 64 bits hold it.
fn numbers_needed(request: &[SeenArgument]) -> u64
    ensures { result ≡ min (numbers_needed request.now) (2 ^ 64 - 1) }
{
    let mut sum = 0_u64;
    for argument in request {
        sum = sum.saturating_add(needed(argument));
    }
    sum
}

// Whether numbers or places are spent.
pub fn are_numbers_spent(state: &ModelState, request: &[SeenArgument]) -> bool
    ensures { result ≡ are_numbers_spent state.now request.now }
{
    let last = state.last.saturating_add(numbers_needed(request));
    last > GREATEST_NUMBER || state.place >= GREATEST_NUMBER
}

// ---- the file that is named

// The argument of that number.
fn argument_of(request: &[SeenArgument], number: u32) -> Option<&SeenArgument>
    ensures { option_copied result ≡ argument_of request.now number }
{
    request.iter().find(|argument| argument.number == number)
}

// The file of that number in the argument.
fn file_of(argument: &SeenArgument, number: u32) -> Option<&SeenFile>
    ensures { option_copied result ≡ file_of_argument argument.now number }
{
    argument
        .files
        .as_slice()
        .iter()
        .find(|file| file.at.file == number)
}

// The file that is named, with its argument.
pub fn named_file<'a>(
    request: &'a [SeenArgument],
    at: &FileAt,
) -> Option<(&'a SeenArgument, &'a SeenFile)>
    ensures { option_map (λ named. (named.0.now, named.1.now)) result ≡ named_file request.now at.now }
{
    let argument = argument_of(request, at.arg)?;
    let file = file_of(argument, at.file)?;
    Some((argument, file))
}

// ---- what a cause names

// Whether the key is among these.
fn is_in(keys: &[Key], key: &Key) -> bool
    ensures { result ≡ is_in keys.now key.now }
{
    keys.iter().any(|other| key == other)
}

// Whether the key lies in the range.
fn is_in_range(range: &KeyRange, key: &Key) -> bool
    ensures { result ≡ is_in_range range.now key.now }
{
    at_most(&range.first, key) && at_most(key, &range.last)
}

// Whether the range has known ends and meets the file.
fn is_known_range(
    alloc: Global,
    known: &[Key],
    range: &KeyRange,
    file: &SeenFile,
) -> Result<bool, AllocError>
    ensures { IfOk result (λ holds. holds ≡ is_known_range known.now range.now file.now) }
{
    let there = range_of_file(alloc, file)?;
    Ok(
        is_in(known, &range.first)
            && is_in(known, &range.last)
            && at_most(&range.first, &range.last)
            && meet(range, &there),
    )
}

// Whether the key is known and lies in the file's range.
fn is_known_key(
    alloc: Global,
    known: &[Key],
    key: &Key,
    file: &SeenFile,
) -> Result<bool, AllocError>
    ensures { IfOk result (λ holds. holds ≡ names_known known.now (KeyCause key.now) file.now) }
{
    let there = range_of_file(alloc, file)?;
    Ok(is_in(known, key) && is_in_range(&there, key))
}

// Whether the cause names known keys that meet the file.
fn names_known(alloc: Global, known: &[Key], why: &Why, file: &SeenFile) -> Result<bool, AllocError>
    ensures { IfOk result (λ holds. holds ≡ names_known known.now why.now file.now) }
{
    match why {
        Why::Key(key) => is_known_key(alloc, known, key, file),
        Why::Running(range) => is_known_range(alloc, known, range, file),
        Why::Meets(range) => is_known_range(alloc, known, range, file),
        Why::Snapshot(_) => Ok(false),
        Why::Files(_, _) => Ok(false),
    }
}

// The known keys of the family of that name.
fn known_in<'a>(state: &'a ModelState, name: &Family) -> &'a [Key]
    ensures { result.now ≡ known_in state.now name.now }
{
    match family_of(state, name) {
        Some(family) => family.known.as_slice(),
        None => &[],
    }
}

// Whether a write of the key stands in the family of that name.
fn was_written(state: &ModelState, name: &Family, key: &Key) -> bool
    ensures { result ≡ was_written state.now name.now key.now }
{
    match family_of(state, name) {
        Some(family) => has_key(family.writes.as_slice(), key),
        None => false,
    }
}

// ---- refusals for what is there

// Whether a write of the key may have to be flushed for the file.
pub fn may_need_flush(
    alloc: Global,
    state: &ModelState,
    key: &Key,
    argument: &SeenArgument,
    file: &SeenFile,
) -> Result<bool, AllocError>
    ensures { IfOk result (λ holds. holds ≡ may_need_flush state.now key.now (argument.now, file.now)) }
{
    let range = range_of_file(alloc, file)?;
    Ok(
        !argument.options.ingest_behind
            && !argument.options.allow_blocking_flush
            && is_in_range(&range, key)
            && was_written(state, &argument.family, key),
    )
}

// Whether a known key may stand in the way of a file that may take no number.
fn may_need_number(
    alloc: Global,
    state: &ModelState,
    why: &Why,
    argument: &SeenArgument,
    file: &SeenFile,
) -> Result<bool, AllocError>
    ensures { IfOk result (λ holds. holds ≡ may_need_number state.now why.now (argument.now, file.now)) }
{
    if argument.options.ingest_behind || argument.options.allow_global_seqno {
        return Ok(false);
    }
    let names = names_known(alloc, known_in(state, &argument.family), why, file)?;
    Ok(names)
}

// Puts the keys of the file at the end, if it comes before that one of its argument.
fn push_file_keys(keys: &mut List<Key>, other: &SeenFile, file: u32) -> Result<(), AllocError>
    ensures { OnOk result (keys.new
        ≡ keys.old ++ (if nat_lt other.now.at.file file then keys_of (entries_of_file other.now) else [])) }
{
    if other.at.file < file {
        push_keys(keys, entries_of(&other.seen))?;
    }
    Ok(())
}

// The known keys of the argument's family, and those of its files before this one.
fn keys_around(
    state: &ModelState,
    alloc: Global,
    argument: &SeenArgument,
    file: &SeenFile,
) -> Result<List<Key>, AllocError>
    ensures { IfOk result (λ keys. keys
        ≡ known_in state.now argument.now.family ++ keys_before argument.now file.now) }
{
    let mut keys = List::new(alloc);
    for key in known_in(state, &argument.family) {
        keys.push(key.clone()?)?;
    }
    push_keys_before(&mut keys, argument, file)?;
    Ok(keys)
}

// Puts the keys of the argument's files before this one at the end.
fn push_keys_before(
    keys: &mut List<Key>,
    argument: &SeenArgument,
    file: &SeenFile,
) -> Result<(), AllocError>
    ensures { OnOk result (keys.new ≡ keys.old ++ keys_before argument.now file.now) }
{
    for other in argument.files.as_slice() {
        push_file_keys(keys, other, file.at.file)?;
    }
    Ok(())
}

// The lowest level of files that aren't behind.
pub fn lowest(state: &ModelState) -> u8
    ensures { result ≡ lowest state.now }
{
    if state.behind { 5 } else { 6 }
}

// Whether the file must go to the lowest level, and keys may stand in its way.
pub fn may_be_too_high(
    alloc: Global,
    state: &ModelState,
    level: u8,
    why: &Why,
    argument: &SeenArgument,
    file: &SeenFile,
) -> Result<bool, AllocError>
    ensures { IfOk result (λ holds. holds ≡ may_be_too_high state.now level why.now (argument.now, file.now)) }
{
    let keys = keys_around(state, alloc, argument, file)?;
    let names = names_known(alloc, keys.as_slice(), why, file)?;
    Ok(
        !argument.options.ingest_behind
            && argument.options.fail_if_not_bottommost_level
            && level < lowest(state)
            && names,
    )
}

// ---- causes by an argument alone

// Why each file of the argument is numbered.
pub fn sure_cause(
    alloc: Global,
    state: &ModelState,
    argument: &SeenArgument,
) -> Result<Option<Why>, AllocError>
    ensures { IfOk result (λ why. why ≡ sure_cause state.now argument.now) }
{
    if let Some((first, second)) = meeting(alloc, argument)? {
        return Ok(Some(Why::Files(first, second)));
    }
    if lives_none(state) || !argument.options.snapshot_consistency {
        return Ok(None);
    }
    Ok(Some(Why::Snapshot(lowest_live(state))))
}

// The argument may not take a number, but would.
fn refused_cause(
    alloc: Global,
    state: &ModelState,
    argument: &SeenArgument,
) -> Result<Option<(FileAt, Why)>, AllocError>
    ensures { IfOk result (λ cause. cause ≡ refused_cause state.now argument.now) }
{
    if argument.options.ingest_behind || argument.options.allow_global_seqno {
        return Ok(None);
    }
    match sure_cause(alloc, state, argument)? {
        Some(why) => Ok(Some((
            FileAt {
                arg: argument.number,
                file: 1,
            },
            why,
        ))),
        None => Ok(None),
    }
}

// The first such argument.
fn first_refused(
    alloc: Global,
    state: &ModelState,
    request: &[SeenArgument],
) -> Result<Option<(FileAt, Why)>, AllocError>
    ensures { IfOk result (λ cause. cause ≡ first_refused state.now request.now) }
{
    for argument in request {
        if let Some(cause) = refused_cause(alloc, state, argument)? {
            return Ok(Some(cause));
        }
    }
    Ok(None)
}

/// The refusals of the last tests that are sure, whatever levels the store chooses.
pub fn sure_refusals(
    alloc: Global,
    state: &ModelState,
    request: &[SeenArgument],
) -> Result<Refusals, AllocError>
    ensures { IfOk result (λ all. all ≡ sure_refusals state.now request.now) }
{
    let mut all = List::new(alloc);
    if let Some((at, why)) = first_refused(alloc, state, request)? {
        all.push(Refusal::NeedsSequence(at, why))?;
    }
    if state.place >= GREATEST_NUMBER {
        all.push(Refusal::NumbersSpent)?;
    }
    Ok(all)
}

// Whether the request is first refused so by what holds of an argument.
fn is_first_cause(
    alloc: Global,
    state: &ModelState,
    request: &[SeenArgument],
    at: &FileAt,
    why: &Why,
) -> Result<bool, AllocError>
    ensures { IfOk result (λ holds. IsTrue holds ↔ (first_refused state.now request.now ≡ Some (at.now, why.now))) }
{
    match first_refused(alloc, state, request)? {
        Some((other, cause)) => Ok(other == *at && same_why(&cause, why)),
        None => Ok(false),
    }
}

// Whether no argument up to this one is refused so.
fn has_no_cause(
    alloc: Global,
    state: &ModelState,
    request: &[SeenArgument],
    at: &FileAt,
) -> Result<bool, AllocError>
    ensures { IfOk result (λ holds. IsTrue holds ↔ (first_refused state.now (take at.now.arg request.now) ≡ None)) }
{
    let (front, _) = parted(request, at.arg as usize);
    match first_refused(alloc, state, front)? {
        Some(_) => Ok(false),
        None => Ok(true),
    }
}

// Whether a key may stand in the way of the named file.
fn may_key_number(
    alloc: Global,
    state: &ModelState,
    request: &[SeenArgument],
    at: &FileAt,
    why: &Why,
) -> Result<bool, AllocError>
    ensures { IfOk result (λ holds. IsTrue holds ↔
        ((first_refused state.now (take at.now.arg request.now) ≡ None)
        × IsSomeAnd (named_file request.now at.now) (λ named. IsTrue (may_need_number state.now why.now named)))) }
{
    if !has_no_cause(alloc, state, request, at)? {
        return Ok(false);
    }
    match named_file(request, at) {
        Some((argument, file)) => may_need_number(alloc, state, why, argument, file),
        None => Ok(false),
    }
}

// Whether the file may need a number for this cause.
pub fn may_need_sequence(
    alloc: Global,
    state: &ModelState,
    request: &[SeenArgument],
    at: &FileAt,
    why: &Why,
) -> Result<bool, AllocError>
    ensures { IfOk result (λ holds. IsTrue holds ↔ (MayNeedSequence state.now request.now at.now why.now)) }
{
    match why {
        Why::Files(_, _) => is_first_cause(alloc, state, request, at, why),
        Why::Snapshot(_) => is_first_cause(alloc, state, request, at, why),
        Why::Key(_) => may_key_number(alloc, state, request, at, why),
        Why::Running(_) => may_key_number(alloc, state, request, at, why),
        Why::Meets(_) => Ok(false),
    }
}
