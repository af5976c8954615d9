ghost use Rattle.std.specs.Prelude.{◌≡◌, ◌++◌, ◌↔◌, IfOk, IsSomeAnd, IsTrue};
ghost use Rattle.st_model.specs.declared.reply.Reply.TheVariants.{Flushed, Compacted, Refused};
ghost use Rattle.st_model.specs.Answer.{write_answer, snap_answer, release_answer, make_answer, drop_answer};
ghost use Rattle.st_model.specs.Answer.{lower_answer};
ghost use Rattle.st_model.specs.Reads.{get_answer, view_answer, scan_answer, at_snapshot};
ghost use Rattle.st_model.specs.Refusals.{exact_refusals, sure_refusals, IsFirstRefusal, MayRefuse};
ghost use Rattle.st_model.specs.Reply.{IsIngested, IsIngestReply, IsOrStops, IsReply, keys_from};
ghost use Rattle.st_model.specs.Request.{request_of};
ghost use Rattle.plain_request.specs.Large.{large_refusal};
ghost use Rattle.plain_reply.specs.Tests.{is_ingested, comes_first};

use crate::may::{is_full, sure_refusals};
use crate::placing::{are_placed, last_number_after};
use crate::refused::{comes_first, may_refuse};
use plain_model::{
    drop_answer, get_answer, get_at_answer, lower_answer, make_answer, release_answer, scan_answer,
    scan_at_answer, snap_answer, view_answer, write_answer,
};
use plain_request::{
    Refusals, SeenArgument, append, exact_refusals, is_large, is_large_refusal, request_of,
};
use plain_same::same_reply;
use st_base::{Family, GREATEST_NUMBER, Key};
use st_model::{
    Asked, Command, FileSeen, IngestExternalFileArg, ModelState, Op, Placed, Refusal, Reply,
    Snapshot,
};
use std::alloc::{AllocError, Global};

// ---- ingestions

// Whether all files of the request may be placed so, as a test.
fn is_ingested(
    alloc: Global,
    state: &ModelState,
    capacity: u64,
    request: &[SeenArgument],
    placed: &[Placed],
) -> Result<bool, AllocError>
    ensures { IfOk result (λ holds. holds ≡ is_ingested state.now capacity request.now placed.now) }
{
    let exact = exact_refusals(alloc, state, request)?;
    if exact.len() > 0 || is_full(state, capacity, request) {
        return Ok(false);
    }
    if state.place >= GREATEST_NUMBER || last_number_after(state.last, placed) > GREATEST_NUMBER {
        return Ok(false);
    }
    are_placed(alloc, state, request, placed)
}

// Whether the request may be refused so, as far as the refusal itself goes.
fn may_be_refused(
    alloc: Global,
    state: &ModelState,
    capacity: u64,
    request: &[SeenArgument],
    refusal: &Refusal,
) -> Result<bool, AllocError>
    ensures { IfOk result (λ holds. IsTrue holds ↔ (MayRefuse state.now capacity request.now refusal.now)) }
{
    let exact = exact_refusals(alloc, state, request)?;
    let may = may_refuse(alloc, state, capacity, request, exact.as_slice(), refusal)?;
    Ok(may)
}

// The refusals that are sure to hold of the request.
fn holding_refusals(
    alloc: Global,
    state: &ModelState,
    request: &[SeenArgument],
) -> Result<Refusals, AllocError>
    ensures { IfOk result (λ all. all
        ≡ exact_refusals state.now request.now ++ sure_refusals state.now request.now) }
{
    let mut all = exact_refusals(alloc, state, request)?;
    append(&mut all, sure_refusals(alloc, state, request)?)?;
    Ok(all)
}

// Whether no refusal that is sure to hold of the request comes from an earlier test.
fn is_first(
    alloc: Global,
    state: &ModelState,
    request: &[SeenArgument],
    refusal: &Refusal,
) -> Result<bool, AllocError>
    ensures { IfOk result (λ holds. holds
        ≡ comes_first (exact_refusals state.now request.now ++ sure_refusals state.now request.now) refusal.now) }
{
    let holding = holding_refusals(alloc, state, request)?;
    let first = comes_first(alloc, holding.as_slice(), refusal)?;
    Ok(first)
}

// Whether the request may be refused so.
fn is_refused(
    alloc: Global,
    state: &ModelState,
    capacity: u64,
    request: &[SeenArgument],
    refusal: &Refusal,
) -> Result<bool, AllocError>
    ensures { IfOk result (λ holds. IsTrue holds ↔
        (MayRefuse state.now capacity request.now refusal.now
        × IsFirstRefusal (exact_refusals state.now request.now ++ sure_refusals state.now request.now) refusal.now)) }
{
    let may = may_be_refused(alloc, state, capacity, request, refusal)?;
    if may {
        let first = is_first(alloc, state, request, refusal)?;
        return Ok(first);
    }
    Ok(false)
}

// Whether the request may be answered so.
fn is_ingest_reply(
    alloc: Global,
    state: &ModelState,
    capacity: u64,
    request: &[SeenArgument],
    reply: &Reply,
) -> Result<bool, AllocError>
    ensures { IfOk result (λ holds. IsTrue holds ↔ (IsIngestReply state.now capacity request.now reply.now)) }
{
    match reply {
        Reply::Refused(refusal) => is_refused(alloc, state, capacity, request, refusal),
        Reply::Ingested(placed) => is_placed(alloc, state, capacity, request, placed.as_slice()),
        Reply::Written(_) => Ok(false),
        Reply::Found(_) => Ok(false),
        Reply::Nothing => Ok(false),
        Reply::View(_) => Ok(false),
        Reply::Pairs(_) => Ok(false),
        Reply::Snapshot(_) => Ok(false),
        Reply::Released => Ok(false),
        Reply::Made => Ok(false),
        Reply::Dropped => Ok(false),
        Reply::Flushed => Ok(false),
        Reply::Compacted => Ok(false),
        Reply::Await => Ok(false),
        Reply::Long => Ok(false),
    }
}

// Whether all files of the request may be placed so, by the relation.
fn is_placed(
    alloc: Global,
    state: &ModelState,
    capacity: u64,
    request: &[SeenArgument],
    placed: &[Placed],
) -> Result<bool, AllocError>
    ensures { IfOk result (λ holds. IsTrue holds ↔ (IsIngested state.now capacity request.now placed.now)) }
{
    let holds = is_ingested(alloc, state, capacity, request, placed)?;
    Ok(holds)
}

// ---- other commands

// Whether the reply is the answer, or one of a stopped store.
fn is_or_stops(reply: &Reply, answer: &Reply) -> bool
    ensures { IsTrue result ↔ (IsOrStops reply.now answer.now) }
{
    same_reply(reply, answer)
        || same_reply(reply, &Reply::Refused(Refusal::Stopped))
        || same_reply(reply, &Reply::Refused(Refusal::DiskFault))
}

// Whether a write may be answered so.
fn is_write(
    state: &ModelState,
    capacity: u64,
    ops: &[Op],
    reply: &Reply,
) -> Result<bool, AllocError>
    ensures { IfOk result (λ holds. IsTrue holds ↔ (IsOrStops reply.now (write_answer state.now capacity ops.now))) }
{
    let answer = write_answer(state, capacity, ops)?;
    Ok(is_or_stops(reply, &answer))
}

// Whether a read may be answered so.
fn is_get(state: &ModelState, family: &Family, key: &Key, reply: &Reply) -> Result<bool, AllocError>
    ensures { IfOk result
        (λ holds. IsTrue holds ↔ (reply.now ≡ get_answer state.now state.now.last family.now key.now)) }
{
    let answer = get_answer(state, state.last, family, key)?;
    Ok(same_reply(reply, &answer))
}

// Whether a read at the snapshot may be answered so.
fn is_get_at(
    state: &ModelState,
    snapshot: Option<Snapshot>,
    family: &Family,
    key: &Key,
    reply: &Reply,
) -> Result<bool, AllocError>
    ensures { IfOk result (λ holds. IsTrue holds ↔ (IsSomeAnd snapshot
        (λ snapshot. reply.now
        ≡ at_snapshot state.now snapshot (λ number. get_answer state.now number family.now key.now)))) }
{
    match snapshot {
        Some(snapshot) => is_get_there(state, snapshot, family, key, reply),
        None => Ok(false),
    }
}

// The same at a snapshot that is named.
fn is_get_there(
    state: &ModelState,
    snapshot: Snapshot,
    family: &Family,
    key: &Key,
    reply: &Reply,
) -> Result<bool, AllocError>
    ensures { IfOk result (λ holds. IsTrue holds
        ↔ (reply.now ≡ at_snapshot state.now snapshot (λ number. get_answer state.now number family.now key.now))) }
{
    let answer = get_at_answer(state, snapshot, family, key)?;
    Ok(same_reply(reply, &answer))
}

// Whether a view may be answered so.
fn is_view(
    alloc: Global,
    state: &ModelState,
    reads: &[(Family, Key)],
    reply: &Reply,
) -> Result<bool, AllocError>
    ensures { IfOk result (λ holds. IsTrue holds ↔ (reply.now ≡ view_answer state.now reads.now)) }
{
    let answer = view_answer(alloc, state, reads)?;
    Ok(same_reply(reply, &answer))
}

// Whether a scan may be answered so.
fn is_scan(
    alloc: Global,
    state: &ModelState,
    family: &Family,
    first: &Key,
    last: &Key,
    limit: u32,
    reply: &Reply,
) -> Result<bool, AllocError>
    ensures { IfOk result (λ holds. IsTrue holds
        ↔ (reply.now ≡ scan_answer state.now state.now.last family.now (keys_from first.now last.now) limit)) }
{
    let answer = scan_answer(alloc, state, state.last, family, first, last, limit)?;
    Ok(same_reply(reply, &answer))
}

// Whether a scan at the snapshot may be answered so.
fn is_scan_there(
    alloc: Global,
    state: &ModelState,
    snapshot: Snapshot,
    family: &Family,
    first: &Key,
    last: &Key,
    limit: u32,
    reply: &Reply,
) -> Result<bool, AllocError>
    ensures { IfOk result (λ holds. IsTrue holds ↔ (reply.now ≡ at_snapshot state.now snapshot
        (λ number. scan_answer state.now number family.now (keys_from first.now last.now) limit))) }
{
    let answer = scan_at_answer(alloc, state, snapshot, family, first, last, limit)?;
    Ok(same_reply(reply, &answer))
}

// The same where the snapshot may be missing.
fn is_scan_at(
    alloc: Global,
    state: &ModelState,
    snapshot: Option<Snapshot>,
    family: &Family,
    first: &Key,
    last: &Key,
    limit: u32,
    reply: &Reply,
) -> Result<bool, AllocError>
    ensures { IfOk result
        (λ holds. IsTrue holds ↔ (IsSomeAnd snapshot (λ snapshot. reply.now ≡ at_snapshot state.now snapshot
        (λ number. scan_answer state.now number family.now (keys_from first.now last.now) limit)))) }
{
    match snapshot {
        Some(snapshot) => is_scan_there(alloc, state, snapshot, family, first, last, limit, reply),
        None => Ok(false),
    }
}

// Whether letting the snapshot go may be answered so.
fn is_release(state: &ModelState, snapshot: Option<Snapshot>, reply: &Reply) -> bool
    ensures { IsTrue result ↔ (IsSomeAnd snapshot (λ snapshot. reply.now ≡ release_answer state.now snapshot)) }
{
    match snapshot {
        Some(snapshot) => same_reply(reply, &release_answer(state, snapshot)),
        None => false,
    }
}

// Whether taking a snapshot may be answered so.
fn is_snap(state: &ModelState, reply: &Reply) -> bool
    ensures { IsTrue result ↔ (reply.now ≡ snap_answer state.now) }
{
    same_reply(reply, &snap_answer(state))
}

// Whether making the family may be answered so.
fn is_make(state: &ModelState, name: &Family, reply: &Reply) -> Result<bool, AllocError>
    ensures { IfOk result (λ holds. IsTrue holds ↔ (IsOrStops reply.now (make_answer state.now name.now))) }
{
    let answer = make_answer(state, name)?;
    Ok(is_or_stops(reply, &answer))
}

// Whether dropping the family may be answered so.
fn is_drop(state: &ModelState, name: &Family, reply: &Reply) -> Result<bool, AllocError>
    ensures { IfOk result (λ holds. IsTrue holds ↔ (IsOrStops reply.now (drop_answer state.now name.now))) }
{
    let answer = drop_answer(state, name)?;
    Ok(is_or_stops(reply, &answer))
}

// Whether a flush may be answered so.
fn is_flush(state: &ModelState, name: &Family, reply: &Reply) -> Result<bool, AllocError>
    ensures { IfOk result (λ holds. IsTrue holds ↔ (IsOrStops reply.now (lower_answer state.now name.now Flushed))) }
{
    let answer = lower_answer(state, name, Reply::Flushed)?;
    Ok(is_or_stops(reply, &answer))
}

// Whether a compaction may be answered so.
fn is_compact(state: &ModelState, name: &Family, reply: &Reply) -> Result<bool, AllocError>
    ensures { IfOk result (λ holds. IsTrue holds ↔ (IsOrStops reply.now (lower_answer state.now name.now Compacted))) }
{
    let answer = lower_answer(state, name, Reply::Compacted)?;
    Ok(is_or_stops(reply, &answer))
}

// Whether the reply is the refusal of a request that is too large.
fn is_large_reply(
    alloc: Global,
    arguments: &[IngestExternalFileArg],
    reply: &Reply,
) -> Result<bool, AllocError>
    ensures { IfOk result (λ holds. IsTrue holds ↔ (reply.now ≡ Refused (large_refusal arguments.now))) }
{
    match reply {
        Reply::Refused(refusal) => is_large_refusal(alloc, arguments, refusal),
        _ => Ok(false),
    }
}

// Whether a request may be answered so, of which the files are seen so.
fn is_ingest(
    alloc: Global,
    state: &ModelState,
    capacity: u64,
    arguments: &[IngestExternalFileArg],
    seen: &[FileSeen],
    reply: &Reply,
) -> Result<bool, AllocError>
    ensures { IfOk result (λ holds. IsTrue holds ↔
        (IsIngestReply state.now capacity (request_of arguments.now seen.now) reply.now)) }
{
    if is_large(arguments) {
        return is_large_reply(alloc, arguments, reply);
    }
    let request = request_of(alloc, arguments, seen)?;
    let holds = is_ingest_reply(alloc, state, capacity, request.as_slice(), reply)?;
    Ok(holds)
}

/// Whether the command, with the snapshot and the files that it names, may be answered so at the state and with this
/// capacity.
pub fn reply(
    alloc: Global,
    state: &ModelState,
    capacity: u64,
    asked: &Asked,
    reply: &Reply,
) -> Result<bool, AllocError>
    ensures { IfOk result (λ holds. IsTrue holds ↔ (IsReply state.now capacity asked.now reply.now)) }
{
    match &asked.command {
        Command::Write(batch) => is_write(state, capacity, batch.ops.as_slice(), reply),
        Command::Get(family, key) => is_get(state, family, key, reply),
        Command::GetAt(_, family, key) => is_get_at(state, asked.snapshot, family, key, reply),
        Command::View(reads) => is_view(alloc, state, reads.as_slice(), reply),
        Command::Scan(family, first, last, limit) => {
            is_scan(alloc, state, family, first, last, *limit, reply)
        }
        Command::ScanAt(_, family, first, last, limit) => {
            let snapshot = asked.snapshot;
            is_scan_at(alloc, state, snapshot, family, first, last, *limit, reply)
        }
        Command::Snap(_) => Ok(is_snap(state, reply)),
        Command::Release(_) => Ok(is_release(state, asked.snapshot, reply)),
        Command::MakeFamily(name) => is_make(state, name, reply),
        Command::DropFamily(name) => is_drop(state, name, reply),
        Command::Flush(name) => is_flush(state, name, reply),
        Command::Compact(name) => is_compact(state, name, reply),
        Command::Ingest(arguments) => {
            let seen = asked.files.as_slice();
            is_ingest(alloc, state, capacity, arguments.as_slice(), seen, reply)
        }
        Command::Await { .. } => Ok(false),
    }
}
