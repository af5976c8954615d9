ghost use Rattle.std.specs.Prelude.{◌≡◌, ◌<◌, length, IfOk, Some, slice_get, option_map};
ghost use Rattle.st_base.specs.Range.{entries_charge, under_number};
ghost use Rattle.st_base.specs.Rows.{entry_of};
ghost use Rattle.st_table.specs.Entries.{last_entry};
ghost use Rattle.st_table.specs.Table.{act_under, acting};

use crate::entry_arena::EntryArena;
use st_base::EntryRef;
use std::alloc::{AllocError, Global};
use std::marker::Model;
use std::sync::Arc;

/// The entries of a shared arena, all under one sequence number, or each under its own where that is 0. They are seen as the
/// list of them.
#[derive(Drop)]
pub(crate) struct SharedEntries {
    arena: Arc<EntryArena>,
    number: u64,
}

impl Model for SharedEntries {
    ghost use Rattle.std.specs.Prelude.{List};
    ghost use Rattle.st_base.specs.declared.entry.Entry.{Entry};
    ghost use Rattle.st_table.specs.Table.{acting};

    ghost Value = { List Entry };

    ghost view = { λ entries. acting entries.number entries.arena.value };
}

// The entry under the number, or under its own where that is 0.
fn act_under(number: u64, entry: EntryRef<'_>) -> EntryRef<'_>
    ensures { entry_of result ≡ act_under number (entry_of entry.entry) }
{
    if number == 0 {
        return entry;
    }
    EntryRef {
        key: entry.key,
        number,
        mark: entry.mark,
    }
}

impl SharedEntries {
    /// The entries of the arena under the number, or under their own where that is 0.
    pub(crate) fn new(
        alloc: Global,
        arena: EntryArena,
        number: u64,
    ) -> Result<SharedEntries, AllocError>
        ensures { IfOk result (λ entries. entries ≡ acting number arena) }
    {
        Ok(SharedEntries {
            arena: Arc::new(alloc, arena)?,
            number,
        })
    }

    /// The same entries under the number. They are shared, and none is copied.
    pub(crate) fn with_number(&self, number: u64) -> Result<SharedEntries, AllocError>
        requires { 0 < number }
        ensures { IfOk result (λ numbered. numbered ≡ under_number number self.now) }
    {
        let arena = self.arena.clone()?;
        Ok(SharedEntries { arena, number })
    }

    /// How many entries there are.
    pub(crate) fn len(&self) -> usize
        ensures { result ≡ length self.now }
    {
        self.arena.len()
    }

    /// The entry at the index.
    pub(crate) fn entry(&self, index: usize) -> EntryRef<'_>
        requires { index < length self.now }
        ensures { slice_get self.now index ≡ Some (entry_of result) }
    {
        act_under(self.number, self.arena.entry(index))
    }

    /// The entry at the index, if there is one.
    pub(crate) fn get(&self, index: usize) -> Option<EntryRef<'_>>
        ensures { option_map entry_of result ≡ slice_get self.now index }
    {
        if index < self.len() {
            Some(self.entry(index))
        } else {
            None
        }
    }

    /// The last entry, if there is one.
    pub(crate) fn last(&self) -> Option<EntryRef<'_>>
        ensures { option_map entry_of result ≡ last_entry self.now }
    {
        self.get(self.len().saturating_sub(1))
    }

    /// The sum of the entries' charges, as far as 64 bits hold it. No entry is looked at.
    pub(crate) fn charge(&self) -> u64
        ensures { result ≡ entries_charge self.now }
    {
        self.arena.charge()
    }
}
