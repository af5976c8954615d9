ghost use Rattle.std.specs.Prelude.{◌≡◌, ℕ, ◌+◌, ◌<◌, ◌≤◌, ◌^◌, ◌==◌, ◌++◌, ◌∷◌, [], IfOk, OnOk, None, Some, is_some};
ghost use Rattle.std.specs.Prelude.{length, take, drop, filter, fold, max, not, if◌then◌else◌};
ghost use Rattle.st_base.specs.Bytes.{same};
ghost use Rattle.st_base.specs.Entries.{entry_charge, add_charge};
ghost use Rattle.st_base.specs.Map.{changed_at};
ghost use Rattle.st_base.specs.declared.entry.Entry.{Entry};
ghost use Rattle.st_base.specs.Map.{set_at, value_at, without};
ghost use Rattle.st_base.specs.Range.{file_charge, has_key, key_at_end, keys_of, range_of, under_number, with_number};
ghost use Rattle.st_model.specs.Apply.{op_family, op_key, op_mark, op_entry, with_write, write_charge, with_ops};
ghost use Rattle.st_model.specs.Apply.{with_marks, with_numbered, with_early, with_behind, with_taken_file, with_known};
ghost use Rattle.st_model.specs.Apply.{last_after, apply_file, apply, IsApplicable};
ghost use Rattle.st_model.specs.State.{new_family};

use st_base::{
    ENTRY_CHARGE, Entries, Entry, Family, Key, KeyRange, LEAST_FILE_CHARGE, List, MakeFault, Mark,
    Value,
};
use st_model::{Change, Marks, ModelFamily, ModelState, Op, Snapshot, Taken};
use std::alloc::{AllocError, Global};

// The family that the operation names.
pub fn op_family(op: &Op) -> &Family
    ensures { result.now ≡ op_family op.now }
{
    match op {
        Op::Put(family, _, _) => family,
        Op::Del(family, _) => family,
    }
}

// The key that the operation names.
fn op_key(op: &Op) -> &Key
    ensures { result.now ≡ op_key op.now }
{
    match op {
        Op::Put(_, key, _) => key,
        Op::Del(_, key) => key,
    }
}

// What the operation sets its key to.
fn op_mark(op: &Op) -> Result<Mark, AllocError>
    ensures { IfOk result (λ mark. mark ≡ op_mark op.now) }
{
    match op {
        Op::Put(_, _, value) => Ok(Mark::Put(value.clone()?)),
        Op::Del(_, _) => Ok(Mark::Gone),
    }
}

// The entry that the operation writes under the number.
fn op_entry(number: u64, op: &Op) -> Result<Entry, AllocError>
    ensures { IfOk result (λ entry. entry ≡ op_entry number op.now) }
{
    Ok(Entry {
        key: op_key(op).clone()?,
        number,
        mark: op_mark(op)?,
    })
}

// The length of the value, in bytes.
fn value_length(value: &Value) -> u64
    ensures length { result ≡ length value.now }
    ensures small { result < 2 ^ 32 }
{
    value.as_bytes().len() as u64
}

// The length of the key, in bytes.
fn key_length(key: &Key) -> u64
    ensures length { result ≡ length key.now }
    ensures small { result < 2 ^ 32 }
{
    key.as_bytes().len() as u64
}

// What the operation counts against the capacity.
fn op_charge(op: &Op) -> u64
    ensures { result ≡ entry_charge (op_key op.now) (op_mark op.now) }
{
    match op {
        Op::Put(_, key, value) => ENTRY_CHARGE + key_length(key) + value_length(value),
        Op::Del(_, key) => ENTRY_CHARGE + key_length(key),
    }
}

// The charge after the operations; it stands still at the end of 64 bits.
pub fn charge_after(charge: u64, ops: &[Op]) -> u64
    ensures { result ≡ add_charge charge (write_charge ops.now) }
{
    let mut sum = charge;
    for op in ops {
        sum = sum.saturating_add(op_charge(op));
    }
    sum
}

// The family with one more write.
fn with_write(mut family: ModelFamily, entry: Entry) -> Result<ModelFamily, AllocError>
    ensures { IfOk result (λ next. next ≡ with_write entry family) }
{
    family.known.push(entry.key.clone()?)?;
    family.writes.push(entry)?;
    Ok(family)
}

// The family of this name after the operation, which may be one on another family.
fn family_after(
    name: &Family,
    family: ModelFamily,
    number: u64,
    op: &Op,
) -> Result<ModelFamily, AllocError>
    ensures { let written = with_write (op_entry number op.now) family in
        IfOk result (λ next. next ≡ (if same name.now (op_family op.now) then written else family)) }
{
    if name == op_family(op) {
        with_write(family, op_entry(number, op)?)
    } else {
        Ok(family)
    }
}

// The families after the operation, which has this number.
fn with_op(
    alloc: Global,
    families: List<(Family, ModelFamily)>,
    number: u64,
    op: &Op,
) -> Result<List<(Family, ModelFamily)>, AllocError>
    ensures { IfOk result (λ next. next
        ≡ changed_at families (op_family op.now) (with_write (op_entry number op.now))) }
{
    let mut next = List::new(alloc);
    for (name, family) in families.into_vec() {
        let changed = family_after(&name, family, number, op)?;
        next.push((name, changed))?;
    }
    Ok(next)
}

// The families after the operations, of which the first takes the number after `last`.
fn with_ops(
    alloc: Global,
    last: u64,
    ops: &[Op],
    mut families: List<(Family, ModelFamily)>,
) -> Result<List<(Family, ModelFamily)>, AllocError>
    requires { last + length ops.now < 2 ^ 64 }
    ensures { IfOk result (λ next. next ≡ with_ops last ops.now families) }
{
    let mut number = last;
    for op in ops {
        number += 1;
        families = with_op(alloc, families, number, op)?;
    }
    Ok(families)
}

// ---- one file of a request

// Puts the entry's mark at its key.
fn set_mark(marks: &mut Marks, entry: &Entry) -> Result<(), AllocError>
    ensures { OnOk result (marks.new ≡ set_at marks.old entry.now.key entry.now.mark) }
{
    marks.set(entry.key.clone()?, entry.mark.clone()?)?;
    Ok(())
}

// The base with the marks of the entries.
fn with_marks(mut base: Marks, entries: &[Entry]) -> Result<Marks, AllocError>
    ensures { IfOk result (λ next. next ≡ with_marks base entries.now) }
{
    for entry in entries {
        set_mark(&mut base, entry)?;
    }
    Ok(base)
}

// The entry under the number.
fn with_number(entry: &Entry, number: u64) -> Result<Entry, AllocError>
    ensures { IfOk result (λ numbered. numbered ≡ with_number number entry.now) }
{
    Ok(Entry {
        key: entry.key.clone()?,
        number,
        mark: entry.mark.clone()?,
    })
}

// Puts the entries behind the writes, under the number.
fn push_numbered(writes: &mut Entries, entries: &[Entry], number: u64) -> Result<(), AllocError>
    ensures { OnOk result (writes.new ≡ writes.old ++ under_number number entries.now) }
{
    for entry in entries {
        writes.push(with_number(entry, number)?)?;
    }
    Ok(())
}

/// Whether there is an entry of the key.
pub fn has_key(entries: &[Entry], key: &Key) -> bool
    ensures { result ≡ has_key entries.now key.now }
{
    entries.iter().any(|entry| entry.key == *key)
}

// Puts the write at the end, if the entries don't have its key.
fn push_other(kept: &mut Entries, entries: &[Entry], write: &Entry) -> Result<(), AllocError>
    ensures { OnOk result (kept.new
        ≡ kept.old ++ filter (λ write. not (has_key entries.now write.key)) (write.now ∷ [])) }
{
    if !has_key(entries, &write.key) {
        kept.push(write.clone()?)?;
    }
    Ok(())
}

// The writes of other keys than those of the entries.
fn writes_of_others(
    alloc: Global,
    writes: &[Entry],
    entries: &[Entry],
) -> Result<Entries, AllocError>
    ensures { IfOk result (λ kept. kept ≡ filter (λ write. not (has_key entries.now write.key)) writes.now) }
{
    let mut kept = List::new(alloc);
    for write in writes {
        push_other(&mut kept, entries, write)?;
    }
    Ok(kept)
}

// Puts the entry at the end, if the base has no mark of its key.
fn push_lacking(lacking: &mut Entries, base: &Marks, entry: &Entry) -> Result<(), AllocError>
    ensures { OnOk result (lacking.new
        ≡ lacking.old ++ filter (λ entry. not (is_some (value_at base.now entry.key))) (entry.now ∷ [])) }
{
    if base.get(&entry.key).is_none() {
        lacking.push(entry.clone()?)?;
    }
    Ok(())
}

// The entries of keys that the base lacks.
fn lacking(alloc: Global, base: &Marks, entries: &[Entry]) -> Result<Entries, AllocError>
    ensures { IfOk result (λ lacking. lacking
        ≡ filter (λ entry. not (is_some (value_at base.now entry.key))) entries.now) }
{
    let mut lacking = List::new(alloc);
    for entry in entries {
        push_lacking(&mut lacking, base, entry)?;
    }
    Ok(lacking)
}

// The key of the first entry, or no bytes.
fn first_key(alloc: Global, entries: &[Entry]) -> Result<Key, AllocError>
    ensures { IfOk result (λ key. key ≡ (range_of entries.now).first) }
{
    match entries.first() {
        Some(entry) => entry.key.clone(),
        None => no_bytes(alloc),
    }
}

// The key of the last entry, or no bytes.
fn last_key(alloc: Global, entries: &[Entry]) -> Result<Key, AllocError>
    ensures { IfOk result (λ key. key ≡ (range_of entries.now).last) }
{
    if entries.is_empty() {
        no_bytes(alloc)
    } else {
        entries[entries.len() - 1].key.clone()
    }
}

// The key of no bytes.
fn no_bytes(alloc: Global) -> Result<Key, AllocError>
    ensures { IfOk result (λ key. key ≡ []) }
{
    match Key::new(alloc, b"") {
        Ok(key) => Ok(key),
        Err(MakeFault::OutOfMemory) => Err(AllocError),
        Err(MakeFault::Limit) => unreachable!(),
    }
}

/// The keys from the first entry's to the last one's.
pub fn range_of(alloc: Global, entries: &[Entry]) -> Result<KeyRange, AllocError>
    ensures { IfOk result (λ range. range ≡ range_of entries.now) }
{
    Ok(KeyRange {
        first: first_key(alloc, entries)?,
        last: last_key(alloc, entries)?,
    })
}

// The family with a file that acts under its number.
fn with_numbered(
    mut family: ModelFamily,
    entries: &[Entry],
    number: u64,
) -> Result<ModelFamily, AllocError>
    ensures { IfOk result (λ next. next ≡ with_numbered number entries.now family) }
{
    push_numbered(&mut family.writes, entries, number)?;
    Ok(family)
}

// The family with a file below all snapshots.
fn with_early(
    alloc: Global,
    mut family: ModelFamily,
    entries: &[Entry],
) -> Result<ModelFamily, AllocError>
    ensures { IfOk result (λ next. next ≡ with_early entries.now family) }
{
    let writes = writes_of_others(alloc, family.writes.as_slice(), entries)?;
    family.writes = writes;
    family.base = with_marks(family.base, entries)?;
    Ok(family)
}

// The family with a file below all that is there.
fn with_behind(
    alloc: Global,
    mut family: ModelFamily,
    entries: &[Entry],
) -> Result<ModelFamily, AllocError>
    ensures { IfOk result (λ next. next ≡ with_behind entries.now family) }
{
    let lacking = lacking(alloc, &family.base, entries)?;
    family.base = with_marks(family.base, lacking.as_slice())?;
    family.ranges.push(range_of(alloc, entries)?)?;
    Ok(family)
}

// The family with the file.
fn with_entries(alloc: Global, family: ModelFamily, file: &Taken) -> Result<ModelFamily, AllocError>
    ensures { IfOk result (λ next. next ≡ with_taken_file file.now family) }
{
    let entries = file.entries.as_slice();
    if file.behind {
        with_behind(alloc, family, entries)
    } else if file.number == 0 {
        with_early(alloc, family, entries)
    } else {
        with_numbered(family, entries, file.number)
    }
}

/// Puts the keys of the entries behind the keys.
pub fn push_keys(keys: &mut List<Key>, entries: &[Entry]) -> Result<(), AllocError>
    ensures { OnOk result (keys.new ≡ keys.old ++ keys_of entries.now) }
{
    for entry in entries {
        keys.push(entry.key.clone()?)?;
    }
    Ok(())
}

// The family with the file, whose keys become known.
fn with_file(alloc: Global, family: ModelFamily, file: &Taken) -> Result<ModelFamily, AllocError>
    ensures { IfOk result (λ next. next ≡ with_known file.now.entries (with_taken_file file.now family)) }
{
    let mut next = with_entries(alloc, family, file)?;
    push_keys(&mut next.known, file.entries.as_slice())?;
    Ok(next)
}

// The family of this name after the file, which may be one of another family.
fn family_with_file(
    alloc: Global,
    name: &Family,
    family: ModelFamily,
    file: &Taken,
) -> Result<ModelFamily, AllocError>
    ensures { let taken = with_known file.now.entries (with_taken_file file.now family) in
        IfOk result (λ next. next ≡ (if same name.now file.now.family then taken else family)) }
{
    if *name == file.family {
        with_file(alloc, family, file)
    } else {
        Ok(family)
    }
}

// The families after the file.
fn families_with_file(
    alloc: Global,
    families: List<(Family, ModelFamily)>,
    file: &Taken,
) -> Result<List<(Family, ModelFamily)>, AllocError>
    ensures { IfOk result (λ next. next
        ≡ changed_at families file.now.family
        (λ family. with_known file.now.entries (with_taken_file file.now family))) }
{
    let mut next = List::new(alloc);
    for (name, family) in families.into_vec() {
        let changed = family_with_file(alloc, &name, family, file)?;
        next.push((name, changed))?;
    }
    Ok(next)
}

// What the entry counts against the capacity.
fn entry_charge(entry: &Entry) -> u64
    ensures length { result ≡ entry_charge entry.now.key entry.now.mark }
    ensures small { result < 2 ^ 40 }
{
    match &entry.mark {
        Mark::Put(value) => ENTRY_CHARGE + key_length(&entry.key) + value_length(value),
        Mark::Gone => ENTRY_CHARGE + key_length(&entry.key),
    }
}

/// What a file of these entries counts against the capacity, as far as 64 bits hold it.
pub fn file_charge(entries: &[Entry]) -> u64
    ensures { result ≡ add_charge 0 (file_charge entries.now) }
{
    let mut sum = 0_u64;
    for entry in entries {
        sum = sum.saturating_add(entry_charge(entry));
    }
    sum.max(LEAST_FILE_CHARGE)
}

// The last number after the file: a file behind has none.
fn last_after(file: &Taken, last: u64) -> u64
    ensures { result ≡ last_after file.now last }
{
    if file.behind || file.number == 0 {
        last
    } else {
        file.number
    }
}

// The state with one more file.
fn apply_file(alloc: Global, mut state: ModelState, file: &Taken) -> Result<ModelState, AllocError>
    ensures { IfOk result (λ next. next ≡ apply_file state file.now) }
{
    state.families = families_with_file(alloc, state.families, file)?;
    state.charge = state
        .charge
        .saturating_add(file_charge(file.entries.as_slice()));
    state.last = last_after(file, state.last);
    Ok(state)
}

// The state with the files, in order.
fn apply_files(
    alloc: Global,
    mut state: ModelState,
    files: &[Taken],
) -> Result<ModelState, AllocError>
    ensures { IfOk result (λ next. next ≡ fold apply_file state files.now) }
{
    for file in files {
        state = apply_file(alloc, state, file)?;
    }
    Ok(state)
}

// ---- snapshots and families

// Puts the snapshot at the end, unless it has the id.
fn push_unless(kept: &mut List<Snapshot>, snapshot: &Snapshot, id: u64) -> Result<(), AllocError>
    ensures { OnOk result (kept.new ≡ kept.old ++ filter (λ live. not (live.id == id)) (snapshot.now ∷ [])) }
{
    if snapshot.id != id {
        kept.push(*snapshot)?;
    }
    Ok(())
}

// The snapshots but that of the id.
fn released(alloc: Global, live: &[Snapshot], id: u64) -> Result<List<Snapshot>, AllocError>
    ensures { IfOk result (λ kept. kept ≡ filter (λ live. not (live.id == id)) live.now) }
{
    let mut kept = List::new(alloc);
    for snapshot in live {
        push_unless(&mut kept, snapshot, id)?;
    }
    Ok(kept)
}

// The families with this one at its place among the names.
fn with_family(
    alloc: Global,
    families: List<(Family, ModelFamily)>,
    name: &Family,
    id: u32,
) -> Result<List<(Family, ModelFamily)>, AllocError>
    requires { value_at families name.now ≡ None }
    ensures { IfOk result (λ next. next ≡ set_at families name.now (new_family id)) }
{
    let mut next = families.into_vec();
    let index = name_among(next.as_slice(), name);
    next.insert(index, (name.clone()?, ModelFamily::new(alloc, id)))?;
    Ok(List::from(next))
}

// How many of the families have lesser names.
fn name_among(families: &[(Family, ModelFamily)], name: &Family) -> usize
    requires { value_at families.now name.now ≡ None }
    ensures within { result ≤ length families.now }
    ensures put { (family : _) → set_at families.now name.now family
        ≡ take result families.now ++ (name.now, family) ∷ drop result families.now }
{
    for (index, (other, _)) in families.iter().enumerate() {
        if name.cmp(other).is_lt() {
            return index;
        }
    }
    families.len()
}

// Puts the family at the end, unless it has the name.
fn push_family_unless(
    kept: &mut List<(Family, ModelFamily)>,
    named: (Family, ModelFamily),
    name: &Family,
) -> Result<(), AllocError>
    ensures { OnOk result (kept.new ≡ kept.old ++ without (named ∷ []) name.now) }
{
    if named.0 != *name {
        kept.push(named)?;
    }
    Ok(())
}

// The families but that of the name.
fn without_family(
    alloc: Global,
    families: List<(Family, ModelFamily)>,
    name: &Family,
) -> Result<List<(Family, ModelFamily)>, AllocError>
    ensures { IfOk result (λ next. next ≡ without families name.now) }
{
    let mut kept = List::new(alloc);
    for named in families.into_vec() {
        push_family_unless(&mut kept, named, name)?;
    }
    Ok(kept)
}

/// The state after the change: the place grows by one, and what the change says changes. The state itself stays.
pub fn apply(alloc: Global, state: &ModelState, change: &Change) -> Result<ModelState, AllocError>
    requires { IsApplicable state.now change.now }
    ensures { IfOk result (λ next. next ≡ apply state.now change.now) }
{
    let mut next = state.clone()?;
    match change {
        Change::Write(batch) => {
            let ops = batch.ops.as_slice();
            next.families = with_ops(alloc, state.last, ops, next.families)?;
            next.charge = charge_after(state.charge, ops);
            next.last = state.last + ops.len() as u64;
        }
        Change::Snap => {
            next.live.push(Snapshot {
                id: state.place + 1,
                number: state.last,
            })?;
        }
        Change::Release(id) => {
            next.live = released(alloc, state.live.as_slice(), *id)?;
        }
        Change::Make(name) => {
            next.families = with_family(alloc, next.families, name, state.next_family)?;
            next.next_family = state.next_family + 1;
        }
        Change::Drop(name) => {
            next.families = without_family(alloc, next.families, name)?;
        }
        Change::Ingest(files) => {
            next = apply_files(alloc, next, files.as_slice())?;
        }
    }
    next.place = state.place + 1;
    Ok(next)
}
