ghost use Rattle.std.specs.Prelude.{◌≡◌, ◌≤◌, ◌<◌, IfOk, length, is_some, not};
ghost use Rattle.std.specs.List.{list_all, list_any};
ghost use Rattle.st_base.specs.Bytes.{at_most};
ghost use Rattle.st_model.specs.State.{family_of};
ghost use Rattle.st_base.specs.Range.{has_key};
ghost use Rattle.st_model.specs.Placing.{is_among_known, last_number_after, numbers_of, ArePlaced, IsPlacedArgument};
ghost use Rattle.st_model.specs.Read.{is_covered};
ghost use Rattle.st_model.specs.Refusals.{sure_cause};
ghost use Rattle.st_model.specs.Request.{range_of_file, entries_of_file};
ghost use Rattle.plain_reply.specs.Tests.{reads_none, always_none, may_be_early, placed_behind, placed_number, placed_level};
ghost use Rattle.plain_reply.specs.Tests.{placed_file, zip_all, are_next, placed_in, placed_argument, are_placed};

use crate::may::{lowest, sure_cause};
use plain_model::{at_most, family_of, has_key, mark_at, parted};
use plain_request::{SeenArgument, SeenFile, entries_of, lives_none, range_of_file};
use st_base::{Entry, Key, KeyRange, Mark};
use st_model::{IngestExternalFileOptions, ModelFamily, ModelState, Placed, Snapshot};
use std::alloc::{AllocError, Global};

// ---- the sequence number 0

// Whether the key reads none at the number.
fn reads_none(family: &ModelFamily, number: u64, key: &Key) -> bool
    ensures { result ≡ reads_none family.now number key.now }
{
    match mark_at(family, number, key) {
        Some(Mark::Put(_)) => false,
        Some(Mark::Gone) => true,
        None => true,
    }
}

// Whether the key reads none at each of the snapshots.
fn none_at(family: &ModelFamily, live: &[Snapshot], key: &Key) -> bool
    ensures { result ≡ list_all (λ live. reads_none family.now live.number key.now) live.now }
{
    live.iter().all(|live| reads_none(family, live.number, key))
}

// Whether the key reads none, now and at each live snapshot.
fn always_none(state: &ModelState, family: &ModelFamily, key: &Key) -> bool
    ensures { result ≡ always_none state.now family.now key.now }
{
    reads_none(family, state.last, key) && none_at(family, state.live.as_slice(), key)
}

// Whether each key reads none, now and at each live snapshot.
fn all_none(state: &ModelState, family: &ModelFamily, entries: &[Entry]) -> bool
    ensures { result ≡ list_all (λ entry. always_none state.now family.now entry.key) entries.now }
{
    entries
        .iter()
        .all(|entry| always_none(state, family, &entry.key))
}

// Whether the key has a write or a mark of the base.
fn is_covered(family: &ModelFamily, key: &Key) -> bool
    ensures { result ≡ is_covered family.now key.now }
{
    has_key(family.writes.as_slice(), key) || family.base.get(key).is_some()
}

// Whether no key has a write or a mark of the base.
fn covers_none(family: &ModelFamily, entries: &[Entry]) -> bool
    ensures { result ≡ list_all (λ entry. not (is_covered family.now entry.key)) entries.now }
{
    entries.iter().all(|entry| !is_covered(family, &entry.key))
}

// Whether the entries may become the oldest of their keys.
fn may_be_early(
    state: &ModelState,
    family: &ModelFamily,
    entries: &[Entry],
    options: &IngestExternalFileOptions,
) -> bool
    ensures { result ≡ may_be_early state.now family.now entries.now options.now }
{
    (lives_none(state) || !options.snapshot_consistency)
        && all_none(state, family, entries)
        && (!state.behind || covers_none(family, entries))
}

// ---- one file

// Whether one of the keys isn't above this one.
fn has_at_most(keys: &[Key], key: &Key) -> bool
    ensures { result ≡ list_any (λ known. at_most known key.now) keys.now }
{
    keys.iter().any(|known| at_most(known, key))
}

// Whether one of the keys isn't below this one.
fn has_at_least(keys: &[Key], key: &Key) -> bool
    ensures { result ≡ list_any (at_most key.now) keys.now }
{
    keys.iter().any(|known| at_most(key, known))
}

// Whether known keys stand around the range.
fn is_among_known(family: &ModelFamily, range: &KeyRange) -> bool
    ensures { result ≡ is_among_known family.now range.now }
{
    let known = family.known.as_slice();
    has_at_most(known, &range.last) && has_at_least(known, &range.first)
}

// Whether the file went to the last level, without a number.
fn placed_behind(file: &SeenFile, placed: &Placed) -> bool
    ensures { result ≡ placed_behind file.now placed.now }
{
    let _ = file;
    placed.level == 6 && placed.number == 0
}

// Whether the file may have the level.
fn placed_level(state: &ModelState, argument: &SeenArgument, placed: &Placed) -> bool
    ensures { result ≡ placed_level state.now argument.now placed.now }
{
    placed.level <= lowest(state)
        && (!argument.options.fail_if_not_bottommost_level || placed.level == lowest(state))
}

// Whether a cause is sure to number the argument's files.
fn is_sure(alloc: Global, state: &ModelState, argument: &SeenArgument) -> Result<bool, AllocError>
    ensures { IfOk result (λ holds. holds ≡ is_some (sure_cause state.now argument.now)) }
{
    Ok(sure_cause(alloc, state, argument)?.is_some())
}

// Whether the file may have the number.
fn placed_number(
    alloc: Global,
    state: &ModelState,
    family: &ModelFamily,
    argument: &SeenArgument,
    file: &SeenFile,
    placed: &Placed,
) -> Result<bool, AllocError>
    ensures { IfOk result (λ holds. holds ≡ placed_number state.now family.now argument.now file.now placed.now) }
{
    let sure = is_sure(alloc, state, argument)?;
    if placed.number == 0 {
        let entries = entries_of(&file.seen);
        return Ok(!sure && may_be_early(state, family, entries, &argument.options));
    }
    let range = range_of_file(alloc, file)?;
    Ok((sure || is_among_known(family, &range)) && argument.options.allow_global_seqno)
}

// Whether the file may be placed so.
fn placed_file(
    alloc: Global,
    state: &ModelState,
    family: &ModelFamily,
    argument: &SeenArgument,
    file: &SeenFile,
    placed: &Placed,
) -> Result<bool, AllocError>
    ensures { IfOk result (λ holds. holds ≡ placed_file state.now family.now argument.now file.now placed.now) }
{
    if !placed_level(state, argument, placed) {
        return Ok(false);
    }
    placed_number(alloc, state, family, argument, file, placed)
}

// ---- the files of an argument

// Whether all files went to the last level, without numbers.
fn all_behind(files: &[SeenFile], placed: &[Placed]) -> bool
    ensures { result ≡ zip_all placed_behind files.now placed.now }
{
    if files.len() != placed.len() {
        return false;
    }
    for (index, file) in files.iter().enumerate() {
        if !placed_behind(file, &placed[index]) {
            return false;
        }
    }
    true
}

// Whether all files of the argument may be placed so.
fn all_placed(
    alloc: Global,
    state: &ModelState,
    family: &ModelFamily,
    argument: &SeenArgument,
    placed: &[Placed],
) -> Result<bool, AllocError>
    ensures { IfOk result (λ holds. holds
        ≡ zip_all (placed_file state.now family.now argument.now) argument.now.files placed.now) }
{
    let files = argument.files.as_slice();
    if files.len() != placed.len() {
        return Ok(false);
    }
    for (index, file) in files.iter().enumerate() {
        if !placed_file(alloc, state, family, argument, file, &placed[index])? {
            return Ok(false);
        }
    }
    Ok(true)
}

// Whether each number that was given is the next one.
fn are_next(before: u64, placed: &[Placed]) -> bool
    ensures { result ≡ are_next before (numbers_of placed.now) }
{
    let mut last = before;
    for one in placed {
        if one.number != 0 {
            if one.number - 1 != last {
                return false;
            }
            last = one.number;
        }
    }
    true
}

// The last number that was given.
pub fn last_number_after(before: u64, placed: &[Placed]) -> u64
    ensures { result ≡ last_number_after before placed.now }
{
    let mut last = before;
    for one in placed {
        if one.number != 0 {
            last = one.number;
        }
    }
    last
}

// Whether the files of the argument's family may be placed so.
fn placed_in(
    alloc: Global,
    state: &ModelState,
    argument: &SeenArgument,
    placed: &[Placed],
) -> Result<bool, AllocError>
    ensures { IfOk result (λ holds. holds ≡ placed_in state.now argument.now placed.now
        (family_of state.now argument.now.family)) }
{
    match family_of(state, &argument.family) {
        Some(family) => all_placed(alloc, state, family, argument, placed),
        None => Ok(false),
    }
}

// Whether the files of the argument may be placed so behind the last number.
fn placed_argument(
    alloc: Global,
    state: &ModelState,
    last: u64,
    argument: &SeenArgument,
    placed: &[Placed],
) -> Result<bool, AllocError>
    ensures { IfOk result (λ holds. holds ≡ placed_argument state.now last argument.now placed.now) }
{
    if argument.options.ingest_behind {
        return Ok(all_behind(argument.files.as_slice(), placed));
    }
    if !are_next(last, placed) {
        return Ok(false);
    }
    placed_in(alloc, state, argument, placed)
}

/// Whether the files of the arguments may be placed so, in the order of the request.
pub fn are_placed(
    alloc: Global,
    state: &ModelState,
    request: &[SeenArgument],
    placed: &[Placed],
) -> Result<bool, AllocError>
    ensures { IfOk result (λ holds. holds ≡ are_placed state.now state.now.last request.now placed.now) }
{
    let mut last = state.last;
    let mut left = placed;
    for argument in request {
        let (here, rest) = parted(left, argument.files.len());
        if !placed_argument(alloc, state, last, argument, here)? {
            return Ok(false);
        }
        last = last_number_after(last, here);
        left = rest;
    }
    Ok(left.is_empty())
}
