ghost use Rattle.std.specs.Prelude.{map, ◌≡◌, ◌≤◌, ◌++◌, IfOk, OnOk, length, Some, None, option_map, IsTrue, ◌↔◌};
ghost use Rattle.std.specs.Option.{option_copied};
ghost use Rattle.std.specs.List.{list_all, AllByRecursion as Each};
ghost use Rattle.st_model.specs.Await.{awaited, call_at, counted, IsAwaitRight};
ghost use Rattle.st_model.specs.History.{all_calls};
ghost use Rattle.st_model.specs.Places.{ArePlacesNext, IsInOrder};
ghost use Rattle.plain_legal.specs.Runs.{are_numbered, is_in_order, are_within, is_await, is_answered_by};
ghost use Rattle.plain_legal.specs.Runs.{awaits_rightly, is_await_right};

use plain_model::is_change;
use st_base::List;
use st_model::{Call, Calls, Command, Reply};
use std::alloc::{AllocError, Global};

// Puts copies of the calls at the end.
fn push_calls(all: &mut List<Call>, calls: &[Call]) -> Result<(), AllocError>
    ensures { OnOk result (all.new ≡ all.old ++ calls.now) }
{
    for call in calls {
        all.push(call.clone()?)?;
    }
    Ok(())
}

/// The calls of all clients, one client after the other.
pub fn all_calls(alloc: Global, transcripts: &[Calls]) -> Result<List<Call>, AllocError>
    ensures { IfOk result (λ all. all ≡ all_calls transcripts.now) }
{
    let mut all = List::new(alloc);
    for calls in transcripts {
        push_calls(&mut all, calls.as_slice())?;
    }
    Ok(all)
}

// ---- places

// Whether the calls have the places from 1 on, as a test.
fn are_numbered(calls: &[Call]) -> bool
    ensures { result ≡ are_numbered calls.now }
{
    let mut last = 0_u64;
    for call in calls {
        if call.place == 0 || call.place - 1 != last {
            return false;
        }
        last = call.place;
    }
    true
}

/// Whether the calls have the places from 1 on, in order.
pub fn are_places_once(accepted: &[Call]) -> bool
    ensures { IsTrue result ↔ ArePlacesNext 0 (map (λ call. call.place) accepted.now) }
{
    are_numbered(accepted)
}

// Whether the places never fall, and those of changes rise.
fn is_in_order(calls: &[Call]) -> bool
    ensures { result ≡ is_in_order 0 calls.now }
{
    let mut before = 0_u64;
    for call in calls {
        if call.place < before {
            return false;
        }
        if is_change(&call.reply) && call.place == before {
            return false;
        }
        before = call.place;
    }
    true
}

// Whether that holds of each transcript.
fn all_in_order(transcripts: &[Calls]) -> bool
    ensures { result ≡ list_all (is_in_order 0) transcripts.now }
{
    transcripts
        .iter()
        .all(|calls| is_in_order(calls.as_slice()))
}

/// Whether along each transcript the places never fall, and those of changes rise.
pub fn are_in_order(transcripts: &[Calls]) -> bool
    ensures { IsTrue result ↔ (Each (IsInOrder 0) transcripts.now) }
{
    all_in_order(transcripts)
}

// Whether no call has a greater place.
fn all_within(changes: u64, calls: &[Call]) -> bool
    ensures { result ≡ are_within changes calls.now }
{
    calls.iter().all(|call| call.place <= changes)
}

/// Whether no call has a greater place.
pub fn are_within(changes: u64, calls: &[Call]) -> bool
    ensures { IsTrue result ↔ (Each (λ call. call.place ≤ changes) calls.now) }
{
    all_within(changes, calls)
}

// ---- awaits

// The call of that number, counted from 1.
fn call_of(calls: &[Call], number: u32) -> Option<&Call>
    ensures { option_copied result ≡ counted calls.now number }
{
    if number == 0 || number as usize > calls.len() {
        return None;
    }
    Some(&calls[number as usize - 1])
}

// The transcript of the client of that number, counted from 1.
fn transcript_of(transcripts: &[Calls], client: u32) -> Option<&Calls>
    ensures { option_copied result ≡ counted transcripts.now client }
{
    if client == 0 || client as usize > transcripts.len() {
        return None;
    }
    Some(&transcripts[client as usize - 1])
}

// The command of that number of the client of that number.
fn call_at(transcripts: &[Calls], client: u32, number: u32) -> Option<&Call>
    ensures { option_copied result ≡ call_at transcripts.now client number }
{
    match transcript_of(transcripts, client) {
        Some(calls) => call_of(calls.as_slice(), number),
        None => None,
    }
}

// Whether the reply is that of an await.
fn is_await(reply: &Reply) -> bool
    ensures { result ≡ is_await reply.now }
{
    matches!(reply, Reply::Await)
}

// Whether the awaited call is there, at no greater place.
fn is_answered_by(place: u64, other: Option<&Call>) -> bool
    ensures { result ≡ is_answered_by place (option_copied other.entry) }
{
    match other {
        Some(other) => other.place <= place,
        None => false,
    }
}

// The client and the command that the command awaits.
fn awaited(command: &Command) -> Option<(u32, u32)>
    ensures { result ≡ awaited command.now }
{
    match command {
        Command::Await { client, command } => Some((*client, *command)),
        _ => None,
    }
}

// Whether an await, and no other command, is answered as one.
fn is_await_right(transcripts: &[Calls], call: &Call) -> bool
    ensures { result ≡ is_await_right transcripts.now call.now }
{
    match awaited(&call.asked.command) {
        Some((client, number)) => {
            let other = call_at(transcripts, client, number);
            is_await(&call.reply) && is_answered_by(call.place, other)
        }
        None => !is_await(&call.reply),
    }
}

// Whether that holds of each call.
fn all_awaits(transcripts: &[Calls], calls: &[Call]) -> bool
    ensures { result ≡ list_all (is_await_right transcripts.now) calls.now }
{
    calls.iter().all(|call| is_await_right(transcripts, call))
}

/// Whether awaits are answered, and nothing else as they are.
pub fn are_awaits_right(transcripts: &[Calls], calls: &[Call]) -> bool
    ensures { IsTrue result ↔ (Each (IsAwaitRight transcripts.now) calls.now) }
{
    all_awaits(transcripts, calls)
}
