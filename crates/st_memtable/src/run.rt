ghost use Rattle.std.specs.Prelude.{◌≡◌, ◌<◌, IfOk, Some, length, option_map, slice_get};
ghost use Rattle.std.specs.Option.{option_copied};
ghost use Rattle.st_base.specs.Rows.{AreRows, entry_of, mark_of, newest};
ghost use Rattle.st_memtable.specs.Runs.{values};

use crate::search::{lower_in, newest_in};
use st_base::{Entry, EntryRef, List, Mark, MarkRef, Rows, Scratch};
use std::alloc::{AllocError, Global};
use std::marker::Model;
use std::sync::Arc;

/// Entries in order, which are shared.
pub(crate) type RunEntries = List<Arc<Entry>>;

/// A sorted run of a memtable, seen as its entries in order. A clone shares them.
#[derive(Drop)]
pub struct Run {
    entries: Arc<RunEntries>,
}

impl Model for Run {
    ghost use Rattle.std.specs.Prelude.{List};
    ghost use Rattle.st_base.specs.Rows.{AreRows};
    ghost use Rattle.st_base.specs.declared.entry.Entry.{Entry};
    ghost use Rattle.st_memtable.specs.Runs.{values};

    ghost Value = { List Entry };

    ghost view = { λ run. values run.entries.value };

    ghost invariant = { λ run. AreRows (values run.entries.value) };
}

impl Run {
    /// The run of these entries, which are in order.
    pub(crate) fn new(alloc: Global, entries: RunEntries) -> Result<Run, AllocError>
        requires { AreRows (values entries) }
        ensures { IfOk result (λ run. run ≡ values entries) }
    {
        Ok(Run {
            entries: Arc::new(alloc, entries)?,
        })
    }

    /// The entries, in order.
    pub(crate) fn as_slice(&self) -> &[Arc<Entry>]
        ensures value { values result.now ≡ self.now }
        ensures rows { AreRows self.now }
    {
        self.entries.as_slice()
    }
}

impl Clone for Run {
    ghost is_clone = { λ run copy. copy ≡ run };

    fn clone(&self) -> Result<Run, AllocError> {
        Ok(Run {
            entries: self.entries.clone()?,
        })
    }
}

/// The mark where it lies.
pub(crate) fn mark_ref(mark: &Mark) -> MarkRef<'_>
    ensures { mark_of result ≡ mark.now }
{
    match mark {
        Mark::Put(value) => MarkRef::Put(value.as_bytes()),
        Mark::Gone => MarkRef::Gone,
    }
}

// The entry where it lies.
fn entry_ref(entry: &Entry) -> EntryRef<'_>
    ensures { entry_of result ≡ entry.now }
{
    EntryRef {
        key: entry.key.as_bytes(),
        number: entry.number,
        mark: mark_ref(&entry.mark),
    }
}

// The entry at the index.
fn entry_at(run: &[Arc<Entry>], index: usize) -> &Entry
    requires { index < length run.now }
    ensures { slice_get (values run.now) index ≡ Some result.now }
{
    &run[index]
}

// The key of the entry at the index, if there is one.
fn key_at(run: &[Arc<Entry>], index: usize) -> Option<&[u8]>
    ensures { option_copied result ≡ option_map (λ entry. entry.key) (slice_get (values run.now) index) }
{
    if index < run.len() {
        Some(entry_at(run, index).key.as_bytes())
    } else {
        None
    }
}

impl Rows for Run {
    ghost rows = { λ run. run };

    fn len(&self) -> usize {
        self.as_slice().len()
    }

    fn at<'a>(&'a self, index: usize, _scratch: &'a mut Scratch) -> EntryRef<'a> {
        entry_ref(entry_at(self.as_slice(), index))
    }

    fn lower(&self, key: &[u8], number: u64, _scratch: &mut Scratch) -> usize {
        lower_in(self.as_slice(), key, number)
    }

    fn first(&self) -> Option<&[u8]> {
        key_at(self.as_slice(), 0)
    }

    fn last(&self) -> Option<&[u8]> {
        let run = self.as_slice();
        key_at(run, run.len().saturating_sub(1))
    }

    fn newest<'a>(
        &'a self,
        key: &[u8],
        number: u64,
        _scratch: &mut Scratch,
    ) -> Option<(u64, MarkRef<'a>)> {
        match newest_in(self.as_slice(), key, number) {
            Some(entry) => Some((entry.number, mark_ref(&entry.mark))),
            None => None,
        }
    }
}
