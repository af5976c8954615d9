ghost use Rattle.std.specs.Prelude.{◌≡◌, ◌∷◌, [], IfOk, IsTrue, IsSomeAnd, Contains, length, ⊤, ◌↔◌};
ghost use Rattle.std.specs.Prelude.{not};
ghost use Rattle.st_base.specs.Bytes.{below};
ghost use Rattle.st_model.specs.Refusals.{exact_refusals, named_file, step_of, of_file, may_need_flush, may_be_too_high};
ghost use Rattle.st_model.specs.Refusals.{MayRefuse};
ghost use Rattle.plain_reply.specs.Tests.{comes_first};

use crate::may::{
    are_numbers_spent, is_full, may_be_too_high, may_need_flush, may_need_sequence, named_file,
};
use plain_request::SeenArgument;
use plain_same::same_refusal;
use st_base::{Key, List};
use st_model::{FileAt, ModelState, Refusal, Why};
use std::alloc::{AllocError, Global};

// ---- the order of tests

// A step that is one number.
fn step(alloc: Global, number: u32) -> Result<List<u32>, AllocError>
    ensures { IfOk result (λ step. step ≡ number ∷ []) }
{
    List::from_slice(alloc, &[number])
}

// A step of a file.
fn of_file(alloc: Global, at: &FileAt, number: u32) -> Result<List<u32>, AllocError>
    ensures { IfOk result (λ step. step ≡ of_file at.now number) }
{
    List::from_slice(alloc, &[5, at.arg, at.file, number])
}

// The step of the test that the refusal comes from.
fn step_of(alloc: Global, refusal: &Refusal) -> Result<List<u32>, AllocError>
    ensures { IfOk result (λ step. step ≡ step_of refusal.now) }
{
    match refusal {
        Refusal::EmptyRequest => step(alloc, 1),
        Refusal::NoFiles(_) => step(alloc, 2),
        Refusal::FamilyTwice(_) => step(alloc, 3),
        Refusal::TooManyFiles => step(alloc, 4),
        Refusal::InputFault(at) => of_file(alloc, at, 0),
        Refusal::FileMissing(at) => of_file(alloc, at, 1),
        Refusal::BadTable(at, _) => of_file(alloc, at, 2),
        Refusal::NoEntry(at) => of_file(alloc, at, 3),
        Refusal::FilesMeet(_, _) => step(alloc, 9),
        Refusal::Stopped => step(alloc, 10),
        Refusal::DiskFault => step(alloc, 10),
        Refusal::UnknownFamily(_) => step(alloc, 11),
        Refusal::BehindNotEnabled(_) => step(alloc, 12),
        Refusal::SnapshotsLive(_, _) => step(alloc, 13),
        Refusal::FlushNeeded(_, _) => step(alloc, 14),
        Refusal::BehindDoesNotFit(_, _) => step(alloc, 15),
        Refusal::NeedsSequence(_, _) => step(alloc, 16),
        Refusal::NotLastLevel(_, _, _) => step(alloc, 17),
        Refusal::NumbersSpent => step(alloc, 18),
        Refusal::StoreFull => step(alloc, 19),
        Refusal::FamilyExists(_) => step(alloc, 20),
        Refusal::DefaultStays => step(alloc, 20),
        Refusal::FamiliesFull => step(alloc, 20),
        Refusal::SnapshotsFull => step(alloc, 20),
        Refusal::SnapshotGone(_) => step(alloc, 20),
        Refusal::OutOfMemory => step(alloc, 20),
    }
}

// Whether the first step comes before the second.
fn is_below(one: &[u32], other: &[u32]) -> bool
    ensures { result ≡ below one.now other.now }
{
    one.cmp(other).is_lt()
}

// Whether the refusal comes from an earlier test.
fn is_earlier(alloc: Global, one: &Refusal, other: &Refusal) -> Result<bool, AllocError>
    ensures { IfOk result (λ holds. holds ≡ below (step_of one.now) (step_of other.now)) }
{
    let first = step_of(alloc, one)?;
    let second = step_of(alloc, other)?;
    Ok(is_below(first.as_slice(), second.as_slice()))
}

// Whether none of the refusals comes from an earlier test.
pub fn comes_first(
    alloc: Global,
    holding: &[Refusal],
    refusal: &Refusal,
) -> Result<bool, AllocError>
    ensures { IfOk result (λ holds. holds ≡ comes_first holding.now refusal.now) }
{
    for other in holding {
        if is_earlier(alloc, other, refusal)? {
            return Ok(false);
        }
    }
    Ok(true)
}

// ---- the refusals that may come

// Whether the refusal is among these.
fn contains(exact: &[Refusal], refusal: &Refusal) -> bool
    ensures { IsTrue result ↔ (Contains exact.now refusal.now) }
{
    for other in exact {
        if same_refusal(other, refusal) {
            return true;
        }
    }
    false
}

// Whether a write of the key may have to be flushed for the named file.
fn may_flush(
    alloc: Global,
    state: &ModelState,
    request: &[SeenArgument],
    at: &FileAt,
    key: &Key,
) -> Result<bool, AllocError>
    ensures { IfOk result (λ holds. IsTrue holds ↔
        (IsSomeAnd (named_file request.now at.now) (λ named. IsTrue (may_need_flush state.now key.now named)))) }
{
    match named_file(request, at) {
        Some((argument, file)) => may_need_flush(alloc, state, key, argument, file),
        None => Ok(false),
    }
}

// Whether keys may keep the named file from the lowest level.
fn may_stay_high(
    alloc: Global,
    state: &ModelState,
    request: &[SeenArgument],
    at: &FileAt,
    level: u8,
    why: &Why,
) -> Result<bool, AllocError>
    ensures { IfOk result (λ holds. IsTrue holds ↔
        (IsSomeAnd (named_file request.now at.now) (λ named. IsTrue (may_be_too_high state.now level why.now named)))) }
{
    match named_file(request, at) {
        Some((argument, file)) => may_be_too_high(alloc, state, level, why, argument, file),
        None => Ok(false),
    }
}

// Whether the request names the file.
fn is_named(request: &[SeenArgument], at: &FileAt) -> bool
    ensures { IsTrue result ↔ (IsSomeAnd (named_file request.now at.now) (λ _. ⊤)) }
{
    named_file(request, at).is_some()
}

// Whether the request may be refused so, as far as the refusal itself goes.
pub fn may_refuse(
    alloc: Global,
    state: &ModelState,
    capacity: u64,
    request: &[SeenArgument],
    exact: &[Refusal],
    refusal: &Refusal,
) -> Result<bool, AllocError>
    requires { exact.now ≡ exact_refusals state.now request.now }
    ensures { IfOk result (λ holds. IsTrue holds ↔ (MayRefuse state.now capacity request.now refusal.now)) }
{
    match refusal {
        Refusal::InputFault(at) => Ok(is_named(request, at)),
        Refusal::Stopped => Ok(true),
        Refusal::DiskFault => Ok(true),
        Refusal::FlushNeeded(at, key) => may_flush(alloc, state, request, at, key),
        Refusal::NeedsSequence(at, why) => may_need_sequence(alloc, state, request, at, why),
        Refusal::NotLastLevel(at, level, why) => {
            may_stay_high(alloc, state, request, at, *level, why)
        }
        Refusal::NumbersSpent => Ok(are_numbers_spent(state, request)),
        Refusal::StoreFull => Ok(is_full(state, capacity, request)),
        Refusal::EmptyRequest => Ok(contains(exact, refusal)),
        Refusal::NoFiles(_) => Ok(contains(exact, refusal)),
        Refusal::FamilyTwice(_) => Ok(contains(exact, refusal)),
        Refusal::TooManyFiles => Ok(contains(exact, refusal)),
        Refusal::FileMissing(_) => Ok(contains(exact, refusal)),
        Refusal::BadTable(_, _) => Ok(contains(exact, refusal)),
        Refusal::NoEntry(_) => Ok(contains(exact, refusal)),
        Refusal::FilesMeet(_, _) => Ok(contains(exact, refusal)),
        Refusal::UnknownFamily(_) => Ok(contains(exact, refusal)),
        Refusal::BehindNotEnabled(_) => Ok(contains(exact, refusal)),
        Refusal::SnapshotsLive(_, _) => Ok(contains(exact, refusal)),
        Refusal::BehindDoesNotFit(_, _) => Ok(contains(exact, refusal)),
        Refusal::FamilyExists(_) => Ok(contains(exact, refusal)),
        Refusal::DefaultStays => Ok(contains(exact, refusal)),
        Refusal::FamiliesFull => Ok(contains(exact, refusal)),
        Refusal::SnapshotsFull => Ok(contains(exact, refusal)),
        Refusal::SnapshotGone(_) => Ok(contains(exact, refusal)),
        Refusal::OutOfMemory => Ok(contains(exact, refusal)),
    }
}
