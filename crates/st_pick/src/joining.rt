ghost use Rattle.std.specs.Prelude.{◌≡◌, [], ◌∷◌, IfOk, if◌then◌else◌};
ghost use Rattle.st_base.specs.Bytes.{below};
ghost use Rattle.st_base.specs.Range.{meet};
ghost use Rattle.st_pick.specs.Picked.{joint_range_of, with_meeting};

use st_base::{Key, KeyRange, List, MakeFault, Ranged};
use st_order::{at_most, below};
use std::alloc::{AllocError, Global};

// The lesser of two keys.
fn lesser<'a>(one: &'a Key, other: &'a Key) -> &'a Key
    ensures { result.now ≡ (if below other.now one.now then other.now else one.now) }
{
    if below(other.as_bytes(), one.as_bytes()) {
        other
    } else {
        one
    }
}

// The greater of two keys.
fn greater<'a>(one: &'a Key, other: &'a Key) -> &'a Key
    ensures { result.now ≡ (if below one.now other.now then other.now else one.now) }
{
    if below(one.as_bytes(), other.as_bytes()) {
        other
    } else {
        one
    }
}

// The key of no bytes.
fn no_bytes(alloc: Global) -> Result<Key, AllocError>
    ensures { IfOk result (λ key. key ≡ []) }
{
    match Key::new(alloc, &[]) {
        Ok(key) => Ok(key),
        Err(MakeFault::OutOfMemory) => Err(AllocError),
        Err(MakeFault::Limit) => unreachable!(),
    }
}

/// The joint range of the tables: the range of no bytes where there is none.
pub(crate) fn joint_range(alloc: Global, tables: &[Ranged]) -> Result<KeyRange, AllocError>
    ensures { IfOk result (λ range. range ≡ joint_range_of tables.now) }
{
    if tables.is_empty() {
        return Ok(KeyRange {
            first: no_bytes(alloc)?,
            last: no_bytes(alloc)?,
        });
    }
    let mut index = tables.len() - 1;
    let end = &tables[index].range;
    let mut first = &end.first;
    let mut last = &end.last;
    while index > 0 {
        index -= 1;
        let range = &tables[index].range;
        first = lesser(&range.first, first);
        last = greater(&range.last, last);
    }
    Ok(KeyRange {
        first: first.clone()?,
        last: last.clone()?,
    })
}

/// Whether the two ranges meet.
pub(crate) fn meets(one: &KeyRange, other: &KeyRange) -> bool
    ensures { result ≡ meet one.now other.now }
{
    at_most(one.first.as_bytes(), other.last.as_bytes())
        && at_most(other.first.as_bytes(), one.last.as_bytes())
}

// Another table of the same file, range and charge.
fn copy(table: &Ranged) -> Result<Ranged, AllocError>
    ensures { IfOk result (λ copy. copy ≡ table.now) }
{
    let first: Key = table.range.first.clone()?;
    let last: Key = table.range.last.clone()?;
    Ok(Ranged {
        file: table.file,
        range: KeyRange { first, last },
        charge: table.charge,
    })
}

/// These tables, and behind them those of the next level that meet their joint range.
pub(crate) fn with_meeting(
    alloc: Global,
    tables: List<Ranged>,
    next: &[Ranged],
) -> Result<List<Ranged>, AllocError>
    ensures { IfOk result (λ inputs. inputs ≡ with_meeting tables next.now) }
{
    let range = joint_range(alloc, tables.as_slice())?;
    let mut inputs = tables;
    for table in next {
        if meets(&table.range, &range) {
            inputs.push(copy(table)?)?;
        }
    }
    Ok(inputs)
}

/// A list of one table.
pub(crate) fn alone(alloc: Global, table: &Ranged) -> Result<List<Ranged>, AllocError>
    ensures { IfOk result (λ list. list ≡ table.now ∷ []) }
{
    let mut list = List::new(alloc);
    list.push(copy(table)?)?;
    Ok(list)
}

/// A list of the same tables.
pub(crate) fn copies(alloc: Global, tables: &[Ranged]) -> Result<List<Ranged>, AllocError>
    ensures { IfOk result (λ list. list ≡ tables.now) }
{
    let mut list = List::new(alloc);
    for table in tables {
        list.push(copy(table)?)?;
    }
    Ok(list)
}
