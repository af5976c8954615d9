ghost use Rattle.std.specs.Prelude.{◌≡◌, ◌<◌, IfOk, List, ℕ, Some, length, min, option_map, slice_get};
ghost use Rattle.std.specs.Option.{option_copied};
ghost use Rattle.st_base.specs.Entries.{add_charge, entry_charge};
ghost use Rattle.st_base.specs.Order.{is_before};
ghost use Rattle.st_base.specs.Range.{entries_charge, under_number, with_number};
ghost use Rattle.st_base.specs.Rows.{AreRows, entry_of, lower_index, mark_of, newest_there};

use crate::entry::{Entries, Entry, Mark};
use crate::entry_ref::{EntryRef, MarkRef};
use crate::limits::ENTRY_CHARGE;
use crate::list::List;
use crate::renumber::Renumber;
use crate::rows::Rows;
use crate::scratch::Scratch;
use std::alloc::{AllocError, Global};
use std::cmp::Ordering;
use std::marker::Model;
use std::sync::Arc;

/// A shared list of entries in order: rows that are no bytes of a table.
#[derive(Drop)]
pub struct Listed {
    entries: Arc<Entries>,
    charge: u64,
}

impl Model for Listed {
    ghost use Rattle.std.specs.Prelude.{◌≡◌, List};
    ghost use Rattle.st_base.specs.Range.{entries_charge};
    ghost use Rattle.st_base.specs.Rows.{AreRows};
    ghost use Rattle.st_base.specs.declared.entry.Entry.{Entry};

    ghost Value = { List Entry };

    ghost view = { λ listed. listed.entries.value };

    ghost invariant = { λ listed. AreRows listed.entries.value
        × (listed.charge ≡ entries_charge listed.entries.value) };
}

// The mark where it lies.
fn mark_ref(mark: &Mark) -> MarkRef<'_>
    ensures { mark_of result ≡ mark.now }
{
    match mark {
        Mark::Put(value) => MarkRef::Put(value.as_bytes()),
        Mark::Gone => MarkRef::Gone,
    }
}

// The entry where it lies.
fn entry_ref(entry: &Entry) -> EntryRef<'_>
    ensures { entry_of result ≡ entry.now }
{
    EntryRef {
        key: entry.key.as_bytes(),
        number: entry.number,
        mark: mark_ref(&entry.mark),
    }
}

// What the entry counts.
fn charge_of(entry: &Entry) -> u64
    ensures { result ≡ entry_charge entry.now.key entry.now.mark }
{
    let key = entry.key.as_bytes().len() as u64;
    match &entry.mark {
        Mark::Put(value) => ENTRY_CHARGE + key + value.as_bytes().len() as u64,
        Mark::Gone => ENTRY_CHARGE + key,
    }
}

// What the entries count, as far as 64 bits hold it.
fn charge_of_all(entries: &[Entry]) -> u64
    ensures { result ≡ entries_charge entries.now }
{
    let mut sum = 0_u64;
    for entry in entries {
        sum = sum.saturating_add(charge_of(entry));
    }
    sum
}

// Whether the entry comes before the position of the key and the number.
fn is_before(key: &[u8], number: u64, entry: &Entry) -> bool
    ensures { result ≡ is_before key.now number entry.now }
{
    match entry.key.as_bytes().cmp(key) {
        Ordering::Less => true,
        Ordering::Equal => number < entry.number,
        Ordering::Greater => false,
    }
}

// How many entries come before the position of the key and the number.
fn lower_index(entries: &[Entry], key: &[u8], number: u64) -> usize
    ensures { result ≡ lower_index entries.now key.now number }
{
    for (index, entry) in entries.iter().enumerate() {
        if !is_before(key, number, entry) {
            return index;
        }
    }
    entries.len()
}

// The entry at the index, if there is one.
fn entry_at(entries: &[Entry], index: usize) -> Option<&Entry>
    ensures { option_copied result ≡ slice_get entries.now index }
{
    if index < entries.len() {
        Some(&entries[index])
    } else {
        None
    }
}

// The entry's number and mark, if it has the key.
fn newest_there<'a>(key: &[u8], entry: Option<&'a Entry>) -> Option<(u64, MarkRef<'a>)>
    ensures { option_map (λ found. (found.0, mark_of found.1)) result
        ≡ newest_there key.now (option_copied entry.entry) }
{
    let entry = entry?;
    if entry.key.as_bytes() == key {
        Some((entry.number, mark_ref(&entry.mark)))
    } else {
        None
    }
}

// The entry under the number.
fn with_number(entry: &Entry, number: u64) -> Result<Entry, AllocError>
    ensures { IfOk result (λ numbered. numbered ≡ with_number number entry.now) }
{
    Ok(Entry {
        key: entry.key.clone()?,
        number,
        mark: entry.mark.clone()?,
    })
}

// The entries under the number.
fn under_number(alloc: Global, entries: &[Entry], number: u64) -> Result<Entries, AllocError>
    ensures { IfOk result (λ numbered. numbered ≡ under_number number entries.now) }
{
    let mut numbered = List::new(alloc);
    for entry in entries {
        numbered.push(with_number(entry, number)?)?;
    }
    Ok(numbered)
}

impl Listed {
    /// The list of these entries, which are in order.
    pub fn new(alloc: Global, entries: Entries) -> Result<Listed, AllocError>
        requires { AreRows entries }
        ensures { IfOk result (λ listed. listed ≡ entries) }
    {
        let charge = charge_of_all(entries.as_slice());
        Ok(Listed {
            entries: Arc::new(alloc, entries)?,
            charge,
        })
    }

    /// The entries, in order.
    pub fn as_slice(&self) -> &[Entry]
        ensures value { result.now ≡ self.now }
        ensures rows { AreRows self.now }
    {
        self.entries.as_slice()
    }
}

impl Rows for Listed {
    ghost rows = { λ listed. listed };

    fn len(&self) -> usize {
        self.entries.len()
    }

    fn at<'a>(&'a self, index: usize, _scratch: &'a mut Scratch) -> EntryRef<'a> {
        entry_ref(&self.as_slice()[index])
    }

    fn lower(&self, key: &[u8], number: u64, _scratch: &mut Scratch) -> usize {
        lower_index(self.as_slice(), key, number)
    }

    fn first(&self) -> Option<&[u8]> {
        match self.as_slice().first() {
            Some(entry) => Some(entry.key.as_bytes()),
            None => None,
        }
    }

    fn last(&self) -> Option<&[u8]> {
        match self.as_slice().last() {
            Some(entry) => Some(entry.key.as_bytes()),
            None => None,
        }
    }

    fn newest<'a>(
        &'a self,
        key: &[u8],
        number: u64,
        _scratch: &mut Scratch,
    ) -> Option<(u64, MarkRef<'a>)> {
        let entries = self.as_slice();
        let index = lower_index(entries, key, number);
        newest_there(key, entry_at(entries, index))
    }
}

impl Renumber for Listed {
    fn with_number(&self, alloc: Global, number: u64) -> Result<Listed, AllocError> {
        let entries = under_number(alloc, self.as_slice(), number)?;
        Listed::new(alloc, entries)
    }

    fn charge(&self) -> u64 {
        self.charge
    }
}
