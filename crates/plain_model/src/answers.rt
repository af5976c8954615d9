ghost use Rattle.std.specs.Prelude.{◌≡◌, ℕ, ◌<◌, ◌++◌, ◌∷◌, [], ◌↔◌, IfOk, OnOk, filter, filter_map, length};
ghost use Rattle.std.specs.Prelude.{map, not, slice_get};
ghost use Rattle.std.specs.Option.{option_copied, option_map};
ghost use Rattle.st_base.specs.Range.{is_in_range, keys_of};
ghost use Rattle.st_base.specs.declared.entry.Entry.{Entry};
ghost use Rattle.st_model.specs.declared.refusal.Refusal.TheVariants.{UnknownFamily};
ghost use Rattle.st_model.specs.declared.reply.Reply.TheVariants.{Refused};
ghost use Rattle.st_model.specs.State.{family_of, has_family, lives};
ghost use Rattle.st_model.specs.Apply.{op_family};
ghost use Rattle.st_model.specs.Answer.{write_answer, snap_answer, release_answer, make_answer, drop_answer};
ghost use Rattle.st_model.specs.Answer.{lower_answer};
ghost use Rattle.st_model.specs.Reads.{found, read_in, get_answer, view_answer, view_values, scan_answer, at_snapshot};
ghost use Rattle.st_model.specs.Scan.{marked_keys, pairs_within, scanned};
ghost use Rattle.st_model.specs.Read.{read};
ghost use Rattle.st_model.specs.Reply.{keys_from};
ghost use Rattle.plain_model.specs.Seen.{pairs_of};

use crate::applies::{charge_after, op_family};
use crate::kept::newest_marks;
use crate::reads::read;
use st_base::{
    Entry, FAMILIES, Family, GREATEST_NUMBER, Key, LAST_FAMILY_ID, List, SCAN_BYTES, SNAPSHOTS,
    Value,
};
use st_model::{ModelFamily, ModelState, Op, Refusal, Reply, Snapshot};
use std::alloc::{AllocError, Global};
use std::cmp::Ordering;

/// The family of that name, if it is there.
pub fn family_of<'a>(state: &'a ModelState, name: &Family) -> Option<&'a ModelFamily>
    ensures { option_copied result ≡ family_of state.now name.now }
{
    for (other, family) in state.families.as_slice() {
        if name.cmp(other) == Ordering::Equal {
            return Some(family);
        }
    }
    None
}

// The refusal of a family that isn't there.
fn unknown(name: &Family) -> Result<Reply, AllocError>
    ensures { IfOk result (λ reply. reply ≡ Refused (UnknownFamily name.now)) }
{
    Ok(Reply::Refused(Refusal::UnknownFamily(name.clone()?)))
}

// ---- writes

// The first family that an operation names and that isn't there.
fn first_unknown<'a>(state: &ModelState, ops: &'a [Op]) -> Option<&'a Family>
    ensures { option_copied result
        ≡ slice_get (filter (λ name. not (has_family state.now name)) (map op_family ops.now)) 0 }
{
    for op in ops {
        let name = op_family(op);
        if family_of(state, name).is_none() {
            return Some(name);
        }
    }
    None
}

/// What a write is answered, under this capacity.
pub fn write_answer(state: &ModelState, capacity: u64, ops: &[Op]) -> Result<Reply, AllocError>
    ensures { IfOk result (λ reply. reply ≡ write_answer state.now capacity ops.now) }
{
    if let Some(name) = first_unknown(state, ops) {
        return Ok(Reply::Refused(Refusal::UnknownFamily(name.clone()?)));
    }
    let last = state.last.saturating_add(ops.len() as u64);
    if last > GREATEST_NUMBER {
        Ok(Reply::Refused(Refusal::NumbersSpent))
    } else if state.place >= GREATEST_NUMBER {
        Ok(Reply::Refused(Refusal::NumbersSpent))
    } else if charge_after(state.charge, ops) > capacity {
        Ok(Reply::Refused(Refusal::StoreFull))
    } else {
        Ok(Reply::Written(last))
    }
}

// ---- reads

/// What a read of the key is answered at the sequence number.
pub fn get_answer(
    state: &ModelState,
    number: u64,
    name: &Family,
    key: &Key,
) -> Result<Reply, AllocError>
    ensures { IfOk result (λ reply. reply ≡ get_answer state.now number name.now key.now) }
{
    let Some(family) = family_of(state, name) else {
        return Ok(Reply::Refused(Refusal::UnknownFamily(name.clone()?)));
    };
    match read(family, number, key)? {
        Some(value) => Ok(Reply::Found(value)),
        None => Ok(Reply::Nothing),
    }
}

// Whether the snapshot lives.
fn lives(state: &ModelState, snapshot: Snapshot) -> bool
    ensures { result ≡ lives state.now snapshot }
{
    state.live.as_slice().iter().any(|live| live.id == snapshot.id
        && live.number == snapshot.number)
}

/// What a read of the key is answered at the snapshot.
pub fn get_at_answer(
    state: &ModelState,
    snapshot: Snapshot,
    name: &Family,
    key: &Key,
) -> Result<Reply, AllocError>
    ensures { IfOk result (λ reply. reply
        ≡ at_snapshot state.now snapshot (λ number. get_answer state.now number name.now key.now)) }
{
    if lives(state, snapshot) {
        get_answer(state, snapshot.number, name, key)
    } else {
        Ok(Reply::Refused(Refusal::SnapshotGone(snapshot.id)))
    }
}

// The key's value in the family of that name.
fn read_in(
    state: &ModelState,
    number: u64,
    name: &Family,
    key: &Key,
) -> Result<Option<Value>, AllocError>
    ensures { IfOk result (λ value. value ≡ read_in state.now number name.now key.now) }
{
    match family_of(state, name) {
        Some(family) => read(family, number, key),
        None => Ok(None),
    }
}

// The first family that a view reads and that isn't there.
fn first_unknown_read<'a>(state: &ModelState, reads: &'a [(Family, Key)]) -> Option<&'a Family>
    ensures { option_copied result
        ≡ slice_get (filter (λ name. not (has_family state.now name)) (map (λ one. one.0) reads.now)) 0 }
{
    for (name, _) in reads {
        if family_of(state, name).is_none() {
            return Some(name);
        }
    }
    None
}

// What each key of a view reads now.
fn view_values(
    alloc: Global,
    state: &ModelState,
    reads: &[(Family, Key)],
) -> Result<List<Option<Value>>, AllocError>
    ensures { IfOk result (λ values. values ≡ view_values state.now reads.now) }
{
    let mut values = List::new(alloc);
    for (name, key) in reads {
        values.push(read_in(state, state.last, name, key)?)?;
    }
    Ok(values)
}

/// What a view is answered.
pub fn view_answer(
    alloc: Global,
    state: &ModelState,
    reads: &[(Family, Key)],
) -> Result<Reply, AllocError>
    ensures { IfOk result (λ reply. reply ≡ view_answer state.now reads.now) }
{
    match first_unknown_read(state, reads) {
        Some(name) => unknown(name),
        None => Ok(Reply::View(view_values(alloc, state, reads)?)),
    }
}

// ---- snapshots and families

/// What taking a snapshot is answered.
pub fn snap_answer(state: &ModelState) -> Reply
    ensures { result ≡ snap_answer state.now }
{
    if state.live.len() >= SNAPSHOTS {
        Reply::Refused(Refusal::SnapshotsFull)
    } else if state.place >= GREATEST_NUMBER {
        Reply::Refused(Refusal::NumbersSpent)
    } else {
        Reply::Snapshot(state.last)
    }
}

/// What letting the snapshot go is answered.
pub fn release_answer(state: &ModelState, snapshot: Snapshot) -> Reply
    ensures { result ≡ release_answer state.now snapshot }
{
    if !lives(state, snapshot) {
        Reply::Refused(Refusal::SnapshotGone(snapshot.id))
    } else if state.place >= GREATEST_NUMBER {
        Reply::Refused(Refusal::NumbersSpent)
    } else {
        Reply::Released
    }
}

/// What making the family is answered.
pub fn make_answer(state: &ModelState, name: &Family) -> Result<Reply, AllocError>
    ensures { IfOk result (λ reply. reply ≡ make_answer state.now name.now) }
{
    if family_of(state, name).is_some() {
        Ok(Reply::Refused(Refusal::FamilyExists(name.clone()?)))
    } else if state.families.len() >= FAMILIES {
        Ok(Reply::Refused(Refusal::FamiliesFull))
    } else if state.next_family >= LAST_FAMILY_ID {
        Ok(Reply::Refused(Refusal::NumbersSpent))
    } else if state.place >= GREATEST_NUMBER {
        Ok(Reply::Refused(Refusal::NumbersSpent))
    } else {
        Ok(Reply::Made)
    }
}

/// What dropping the family is answered.
pub fn drop_answer(state: &ModelState, name: &Family) -> Result<Reply, AllocError>
    ensures { IfOk result (λ reply. reply ≡ drop_answer state.now name.now) }
{
    if name.is_default() {
        Ok(Reply::Refused(Refusal::DefaultStays))
    } else if family_of(state, name).is_none() {
        unknown(name)
    } else if state.place >= GREATEST_NUMBER {
        Ok(Reply::Refused(Refusal::NumbersSpent))
    } else {
        Ok(Reply::Dropped)
    }
}

/// What a flush or a compaction is answered: the reply, where the family is there.
pub fn lower_answer(state: &ModelState, name: &Family, reply: Reply) -> Result<Reply, AllocError>
    ensures { IfOk result (λ answer. answer ≡ lower_answer state.now name.now reply) }
{
    match family_of(state, name) {
        Some(_) => Ok(reply),
        None => unknown(name),
    }
}

// ---- scans

// Whether the key lies from the first to the last.
fn is_within(first: &Key, last: &Key, key: &Key) -> bool
    ensures { result ≡ is_in_range (keys_from first.now last.now) key.now }
{
    first.cmp(key).is_le() && key.cmp(last).is_le()
}

// Puts the key's pair at the end, if it lies in the range and has a value.
fn push_pair(
    pairs: &mut List<(Key, Value)>,
    family: &ModelFamily,
    number: u64,
    first: &Key,
    last: &Key,
    key: &Key,
) -> Result<(), AllocError>
    ensures { OnOk result (pairs.new
        ≡ pairs.old ++ pairs_of family.now number (keys_from first.now last.now) (key.now ∷ [])) }
{
    if !is_within(first, last, key) {
        return Ok(());
    }
    if let Some(value) = read(family, number, key)? {
        pairs.push((key.clone()?, value))?;
    }
    Ok(())
}

// The pairs of the keys that lie in the range.
fn pairs_of(
    alloc: Global,
    family: &ModelFamily,
    number: u64,
    first: &Key,
    last: &Key,
    entries: &[Entry],
) -> Result<List<(Key, Value)>, AllocError>
    ensures { IfOk result (λ pairs. pairs
        ≡ pairs_of family.now number (keys_from first.now last.now) (keys_of entries.now)) }
{
    let mut pairs = List::new(alloc);
    for entry in entries {
        push_pair(&mut pairs, family, number, first, last, &entry.key)?;
    }
    Ok(pairs)
}

// The pairs of the range that don't read none, in key order.
fn pairs_within(
    alloc: Global,
    family: &ModelFamily,
    number: u64,
    first: &Key,
    last: &Key,
) -> Result<List<(Key, Value)>, AllocError>
    ensures { IfOk result (λ pairs. pairs ≡ pairs_within family.now number (keys_from first.now last.now)) }
{
    let marked = newest_marks(family)?.kept(alloc, true)?;
    pairs_of(alloc, family, number, first, last, marked.as_slice())
}

// At most `limit` of the pairs, and none after the one with which the bytes reach the scan's limit.
fn scanned(
    alloc: Global,
    limit: u32,
    pairs: &[(Key, Value)],
) -> Result<List<(Key, Value)>, AllocError>
    ensures { IfOk result (λ kept. kept ≡ scanned limit 0 pairs.now) }
{
    let mut kept = List::new(alloc);
    let mut left = limit;
    let mut bytes = 0_usize;
    for (key, value) in pairs {
        if left == 0 || bytes >= SCAN_BYTES {
            return Ok(kept);
        }
        kept.push((key.clone()?, value.clone()?))?;
        left -= 1;
        bytes += key.as_bytes().len() + value.as_bytes().len();
    }
    Ok(kept)
}

/// What a scan of the keys from the first to the last, both included, is answered at the sequence number: at most
/// `limit` pairs.
pub fn scan_answer(
    alloc: Global,
    state: &ModelState,
    number: u64,
    name: &Family,
    first: &Key,
    last: &Key,
    limit: u32,
) -> Result<Reply, AllocError>
    ensures { IfOk result (λ reply. reply
        ≡ scan_answer state.now number name.now (keys_from first.now last.now) limit) }
{
    let Some(family) = family_of(state, name) else {
        return Ok(Reply::Refused(Refusal::UnknownFamily(name.clone()?)));
    };
    let pairs = pairs_within(alloc, family, number, first, last)?;
    Ok(Reply::Pairs(scanned(alloc, limit, pairs.as_slice())?))
}

/// What a scan of the keys from the first to the last, both included, is answered at the snapshot: at most `limit`
/// pairs.
pub fn scan_at_answer(
    alloc: Global,
    state: &ModelState,
    snapshot: Snapshot,
    name: &Family,
    first: &Key,
    last: &Key,
    limit: u32,
) -> Result<Reply, AllocError>
    ensures { let answer = at_snapshot state.now snapshot
        (λ number. scan_answer state.now number name.now (keys_from first.now last.now) limit) in
        IfOk result (λ reply. reply ≡ answer) }
{
    if lives(state, snapshot) {
        scan_answer(alloc, state, snapshot.number, name, first, last, limit)
    } else {
        Ok(Reply::Refused(Refusal::SnapshotGone(snapshot.id)))
    }
}
