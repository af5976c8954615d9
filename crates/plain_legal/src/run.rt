ghost use Rattle.std.specs.Prelude.{◌≡◌, ◌<◌, ◌≤◌, ◌^◌, ◌↔◌, All, IfOk, IsTrue, MatchOption, length};
ghost use Rattle.std.specs.List.{AllByRecursion as Each};
ghost use Rattle.st_model.specs.History.{after_call, is_change};
ghost use Rattle.st_model.specs.Legal.{tells_place, AreAcceptedInTurn};
ghost use Rattle.st_model.specs.Reply.{IsReply};
ghost use Rattle.plain_legal.specs.Runs.{AreChanges, IsAnsweredThere, IsAnsweredAlong};

use plain_model::{apply, change_of, is_change, placed_of};
use plain_reply::reply;
use st_model::{Call, ModelState, Placed, Reply};
use std::alloc::{AllocError, Global};

// ---- accepted calls, one after the other

// The number that the file got, which is one of 64 bits.
fn number_of(placed: &Placed) -> u64
    ensures value { result ≡ placed.now.number }
    ensures small { result < 2 ^ 64 }
{
    placed.number
}

// Numbers of 64 bits are small: what the type says, as a fact.
fn are_small(placed: &[Placed])
    ensures { All (λ one. one.number < 2 ^ 64) placed.now }
{
    for one in placed {
        let _number = number_of(one);
    }
}

/// The state after an accepted call that is answered rightly under this capacity.
pub fn after(
    alloc: Global,
    state: &ModelState,
    capacity: u64,
    call: &Call,
) -> Result<ModelState, AllocError>
    requires answered { IsReply state.now capacity call.now.asked call.now.reply }
    requires accepted { IsTrue (is_change call.now.reply) }
    ensures { IfOk result (λ next. next ≡ after_call state.now call.now) }
{
    let _ = capacity;
    let _last = state.last;
    let _family = state.next_family;
    are_small(placed_of(&call.reply));
    match change_of(alloc, call)? {
        Some(change) => apply(alloc, state, &change),
        None => state.clone(),
    }
}

// The state after the accepted call: None exactly where it isn't answered rightly.
fn state_after(
    alloc: Global,
    state: &ModelState,
    capacity: u64,
    call: &Call,
) -> Result<Option<ModelState>, AllocError>
    requires { IsTrue (is_change call.now.reply) }
    ensures { let refused = IsReply state.now capacity call.now.asked call.now.reply → ⊥ in
        IfOk result (λ next. MatchOption next refused
        (λ after. IsReply state.now capacity call.now.asked call.now.reply × (after ≡ after_call state.now call.now))) }
{
    if reply(alloc, state, capacity, &call.asked, &call.reply)? {
        Ok(Some(after(alloc, state, capacity, call)?))
    } else {
        Ok(None)
    }
}

/// Whether each of the accepted calls is answered rightly at the state that those before it leave.
pub fn are_accepted_in_turn(
    alloc: Global,
    opening: &ModelState,
    capacity: u64,
    accepted: &[Call],
) -> Result<bool, AllocError>
    requires { AreChanges accepted.now }
    ensures { IfOk result (λ holds. IsTrue holds ↔ AreAcceptedInTurn opening.now capacity accepted.now) }
{
    let mut state = opening.clone()?;
    for call in accepted {
        match state_after(alloc, &state, capacity, call)? {
            Some(next) => state = next,
            None => return Ok(false),
        }
    }
    Ok(true)
}

// ---- the other calls, each at the state of its place

// Whether the reply speaks of the state at its place.
fn tells_place(reply: &Reply) -> bool
    ensures { result ≡ tells_place reply.now }
{
    match reply {
        Reply::Await => false,
        Reply::Long => false,
        _ => !is_change(reply),
    }
}

// Whether the call, if it speaks of the state at this place, may be answered so there.
fn is_answered_at(
    alloc: Global,
    state: &ModelState,
    capacity: u64,
    call: &Call,
    place: u64,
) -> Result<bool, AllocError>
    ensures { IfOk result (λ holds. IsTrue holds ↔ IsAnsweredThere state.now capacity place call.now) }
{
    if call.place == place && tells_place(&call.reply) {
        reply(alloc, state, capacity, &call.asked, &call.reply)
    } else {
        Ok(true)
    }
}

// Whether that holds of each call.
fn are_answered_at(
    alloc: Global,
    state: &ModelState,
    capacity: u64,
    calls: &[Call],
    place: u64,
) -> Result<bool, AllocError>
    ensures { IfOk result (λ holds. IsTrue holds ↔ Each (IsAnsweredThere state.now capacity place) calls.now) }
{
    for call in calls {
        if !is_answered_at(alloc, state, capacity, call, place)? {
            return Ok(false);
        }
    }
    Ok(true)
}

/// Whether each call that changes nothing may be answered so at the state after the first of the accepted calls, as
/// many as its place says.
pub fn are_answered(
    alloc: Global,
    opening: &ModelState,
    capacity: u64,
    calls: &[Call],
    accepted: &[Call],
) -> Result<bool, AllocError>
    requires changes { AreChanges accepted.now }
    requires in_turn { AreAcceptedInTurn opening.now capacity accepted.now }
    requires within { Each (λ call. call.place ≤ length accepted.now) calls.now }
    ensures { IfOk result (λ holds. IsTrue holds
        ↔ Each (IsAnsweredAlong opening.now capacity accepted.now) calls.now) }
{
    let mut state = opening.clone()?;
    for (place, change) in accepted.iter().enumerate() {
        if !are_answered_at(alloc, &state, capacity, calls, place as u64)? {
            return Ok(false);
        }
        state = after(alloc, &state, capacity, change)?;
    }
    are_answered_at(alloc, &state, capacity, calls, accepted.len() as u64)
}
