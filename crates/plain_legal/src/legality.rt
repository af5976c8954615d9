ghost use Rattle.std.specs.Prelude.{◌≡◌, ◌↔◌, ◌≤◌, IfOk, IsTrue, length};
ghost use Rattle.st_model.specs.History.{accepted_calls, all_calls};
ghost use Rattle.st_model.specs.Legal.{IsLegal};
ghost use Rattle.st_model.specs.State.{IsOpening};
ghost use Rattle.plain_legal.specs.Runs.{AreChanges, IsAnsweredInRun, IsOrderly, IsPlacedRun};

use crate::asks::ask_rightly;
use crate::causes::{have_causes, have_numbers_once};
use crate::long::are_cut_rightly;
use crate::places::{all_calls, are_awaits_right, are_in_order, are_places_once, are_within};
use crate::run::{are_accepted_in_turn, are_answered};
use plain_model::accepted_calls;
use st_model::{Call, Calls, ModelState};
use std::alloc::{AllocError, Global};

// Whether nothing has changed at the state since the opening, and no snapshot lives.
fn is_opening(state: &ModelState) -> bool
    ensures { IsTrue result ↔ IsOpening state.now }
{
    state.place == 0 && state.live.is_empty()
}

// Whether what commands ask, and the places that are printed, are those of a legal run.
fn is_placed_run(
    opening: &ModelState,
    transcripts: &[Calls],
    calls: &[Call],
    accepted: &[Call],
) -> bool
    requires all { calls.now ≡ all_calls transcripts.now }
    requires accepted { accepted.now ≡ accepted_calls transcripts.now }
    ensures { IsTrue result ↔ IsPlacedRun opening.now transcripts.now }
{
    if !is_opening(opening) || !ask_rightly(transcripts) {
        return false;
    }
    if !are_places_once(accepted) || !are_in_order(transcripts) {
        return false;
    }
    are_awaits_right(transcripts, calls) && are_within(accepted.len() as u64, calls)
}

// Whether the parts of the run that look at no state are right.
fn is_orderly(
    alloc: Global,
    opening: &ModelState,
    transcripts: &[Calls],
    calls: &[Call],
    accepted: &[Call],
    input_faults: u64,
    disk_failed: bool,
) -> Result<bool, AllocError>
    requires all { calls.now ≡ all_calls transcripts.now }
    requires accepted { accepted.now ≡ accepted_calls transcripts.now }
    ensures { IfOk result (λ holds. IsTrue holds ↔ IsOrderly opening.now transcripts.now input_faults disk_failed) }
{
    if !is_placed_run(opening, transcripts, calls, accepted) {
        return Ok(false);
    }
    if !have_numbers_once(alloc, calls)? || !are_cut_rightly(alloc, transcripts)? {
        return Ok(false);
    }
    Ok(have_causes(calls, input_faults, disk_failed))
}

// Whether each reply of an orderly run is the model's.
fn is_answered(
    alloc: Global,
    opening: &ModelState,
    capacity: u64,
    transcripts: &[Calls],
    calls: &[Call],
    accepted: &[Call],
) -> Result<bool, AllocError>
    requires all { calls.now ≡ all_calls transcripts.now }
    requires accepted { accepted.now ≡ accepted_calls transcripts.now }
    requires placed { IsPlacedRun opening.now transcripts.now }
    ensures { IfOk result (λ holds. IsTrue holds ↔ IsAnsweredInRun opening.now capacity transcripts.now) }
{
    let _ = transcripts;
    if !are_accepted_in_turn(alloc, opening, capacity, accepted)? {
        return Ok(false);
    }
    are_answered(alloc, opening, capacity, calls, accepted)
}

/// Whether the transcripts, one a client, are one run of the store from its opening state: each command asks rightly;
/// the accepted changes have the places from 1 on, each once; places never fall along a transcript; awaits have seen
/// what they awaited; each reply is the model's at its place; file numbers differ; reads are cut where their transcript
/// is long; and the refusals that come from a fault have one. `input_faults` is by how much the inputs' count of faults
/// rose, `disk_failed` whether the disk's did.
pub fn legal(
    alloc: Global,
    opening: &ModelState,
    capacity: u64,
    transcripts: &[Calls],
    input_faults: u64,
    disk_failed: bool,
) -> Result<bool, AllocError>
    ensures { IfOk result (λ holds. IsTrue holds
        ↔ IsLegal opening.now capacity transcripts.now input_faults disk_failed) }
{
    let calls = all_calls(alloc, transcripts)?;
    let accepted = accepted_calls(alloc, transcripts)?;
    let calls = calls.as_slice();
    let accepted = accepted.as_slice();
    if !is_orderly(
        alloc,
        opening,
        transcripts,
        calls,
        accepted,
        input_faults,
        disk_failed,
    )? {
        return Ok(false);
    }
    is_answered(alloc, opening, capacity, transcripts, calls, accepted)
}
