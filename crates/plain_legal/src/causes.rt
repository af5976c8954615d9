ghost use Rattle.std.specs.Prelude.{map, ◌≡◌, ◌≤◌, ◌++◌, ◌∷◌, ◌==◌, ◌||◌, IfOk, OnOk, length, not, count_by, flat_map, nat_le, nat_eq, IsTrue, ◌↔◌};
ghost use Rattle.std.specs.List.{list_all, IsDistinct, AllByRecursion as Each};
ghost use Rattle.st_model.specs.Causes.{is_input_fault, is_stop, is_stored, HaveCauses};
ghost use Rattle.st_model.specs.Legal.{files_of};
ghost use Rattle.plain_legal.specs.Runs.{are_distinct, is_stopped_by, have_causes};

use plain_model::{is_change, placed_of};
use st_base::List;
use st_model::{Call, Placed, Refusal, Reply};
use std::alloc::{AllocError, Global};

// ---- file numbers

// Puts the file numbers of a call at the end.
fn push_files(numbers: &mut List<u64>, call: &Call) -> Result<(), AllocError>
    ensures { OnOk result (numbers.new ≡ numbers.old ++ files_of call.now) }
{
    push_placed(numbers, placed_of(&call.reply))
}

// Puts the file numbers at the end.
fn push_placed(numbers: &mut List<u64>, placed: &[Placed]) -> Result<(), AllocError>
    ensures { OnOk result (numbers.new ≡ numbers.old ++ map (λ one. one.file) placed.now) }
{
    for one in placed {
        numbers.push(one.file)?;
    }
    Ok(())
}

// The file numbers of the calls.
fn file_numbers(alloc: Global, calls: &[Call]) -> Result<List<u64>, AllocError>
    ensures { IfOk result (λ numbers. numbers ≡ flat_map files_of calls.now) }
{
    let mut numbers = List::new(alloc);
    for call in calls {
        push_files(&mut numbers, call)?;
    }
    Ok(numbers)
}

// Whether the number isn't among these.
fn is_new(number: u64, numbers: &[u64]) -> bool
    ensures { result ≡ list_all (λ other. not (number == other)) numbers.now }
{
    numbers.iter().all(|other| number != *other)
}

// Whether no number stands twice.
fn are_distinct(numbers: &[u64]) -> bool
    ensures { result ≡ are_distinct numbers.now }
{
    for (index, number) in numbers.iter().enumerate() {
        if !is_new(*number, &numbers[index + 1..]) {
            return false;
        }
    }
    true
}

/// Whether no two files of the calls have one number.
pub fn have_numbers_once(alloc: Global, calls: &[Call]) -> Result<bool, AllocError>
    ensures { IfOk result (λ holds. IsTrue holds ↔ (IsDistinct nat_eq (flat_map files_of calls.now))) }
{
    let numbers = file_numbers(alloc, calls)?;
    let holds = are_distinct(numbers.as_slice());
    Ok(holds)
}

// ---- causes

// Whether the reply says that the inputs failed.
fn is_input_fault(reply: &Reply) -> bool
    ensures { result ≡ is_input_fault reply.now }
{
    match reply {
        Reply::Refused(refusal) => matches!(refusal, Refusal::InputFault(_)),
        _ => false,
    }
}

// Whether the reply says that the disk failed, in this call or before.
fn is_stop(reply: &Reply) -> bool
    ensures { result ≡ is_stop reply.now }
{
    match reply {
        Reply::Refused(refusal) => matches!(refusal, Refusal::Stopped | Refusal::DiskFault),
        _ => false,
    }
}

// Whether the reply is that of a change that a stopped store doesn't make.
fn is_stored(reply: &Reply) -> bool
    ensures { result ≡ is_stored reply.now }
{
    match reply {
        Reply::Snapshot(_) => false,
        Reply::Released => false,
        _ => is_change(reply),
    }
}

// How many of the calls say that the inputs failed.
fn input_faults(calls: &[Call]) -> usize
    ensures { result ≡ count_by (λ call. is_input_fault call.reply) calls.now }
{
    let mut count = 0_usize;
    for call in calls {
        if is_input_fault(&call.reply) {
            count += 1;
        }
    }
    count
}

// Whether none of the calls says that the disk failed.
fn never_stops(calls: &[Call]) -> bool
    ensures { result ≡ list_all (λ call. not (is_stop call.reply)) calls.now }
{
    calls.iter().all(|call| !is_stop(&call.reply))
}

// Whether no change that a stopped store doesn't make has a greater place.
fn stores_up_to(place: u64, calls: &[Call]) -> bool
    ensures { result ≡ list_all (λ call. not (is_stored call.reply) || nat_le call.place place) calls.now }
{
    calls
        .iter()
        .all(|call| !is_stored(&call.reply) || call.place <= place)
}

// Whether behind a stop no change is stored.
fn is_stopped_by(calls: &[Call], stop: &Call) -> bool
    ensures { result ≡ is_stopped_by calls.now stop.now }
{
    !is_stop(&stop.reply) || stores_up_to(stop.place, calls)
}

// Whether behind each stop no change is stored.
fn are_stopped(calls: &[Call]) -> bool
    ensures { result ≡ list_all (is_stopped_by calls.now) calls.now }
{
    calls.iter().all(|stop| is_stopped_by(calls, stop))
}

// Whether the refusals that come from a fault have one, as a test.
fn are_caused(calls: &[Call], faults: u64, disk_failed: bool) -> bool
    ensures { result ≡ have_causes calls.now faults disk_failed }
{
    let counted = input_faults(calls) as u64 <= faults;
    counted && (disk_failed || never_stops(calls)) && are_stopped(calls)
}

/// Whether the refusals that come from a fault have one. The inputs' count of faults rose by so many, and the disk's rose
/// or didn't.
pub fn have_causes(calls: &[Call], faults: u64, disk_failed: bool) -> bool
    ensures { IsTrue result ↔ (HaveCauses calls.now faults disk_failed) }
{
    are_caused(calls, faults, disk_failed)
}
