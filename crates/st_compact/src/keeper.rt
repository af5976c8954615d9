ghost use Rattle.std.specs.Prelude.{◌≡◌, [], ◌∷◌, ◌++◌, List, None, Some, OnOk, IfOk};
ghost use Rattle.st_base.specs.Rows.{Fits, entry_of};
ghost use Rattle.st_order.specs.Sorted.{joined};
ghost use Rattle.job_model.specs.Compaction.{cut_tables};
ghost use Rattle.job_model.specs.Drops.{AreApart, DontFall};
ghost use Rattle.st_compact.specs.Cut.{IsCutSoFar, rows_of};

use crate::cut_tables::CutTables;
use crate::searches::{is_read_between, may_go};
use st_base::{Entries, Entry, EntryRef, KeyRange};
use st_merge::owned;
use std::alloc::{AllocError, Global};

/// A compaction under way: the last entry that was kept is held back, since it may be a tombstone that goes.
#[derive(Drop)]
pub struct Keeper<'a> {
    pub alloc: Global,
    pub live: &'a [u64],
    pub drops: &'a [KeyRange],
    pub tables: CutTables,
    pub held: Option<Entry>,
    /// The number of the last entry that was seen.
    pub before: u64,
}

impl<'a> Keeper<'a> {
    ghost use Rattle.st_base.specs.declared.entry.Entry.{Entry};
    ghost use Rattle.st_compact.specs.Kept.{kept_in_all, let_go, stands_held};
    ghost use Rattle.st_compact.specs.Pass.{pass_all};

    /// Before the first entry.
    pub fn new(alloc: Global, live: &'a [u64], drops: &'a [KeyRange], target: u64) -> Keeper<'a>
        ensures cut { IsCutSoFar result.tables }
        ensures left { (rest : List Entry) → kept_in_all result rest ≡ pass_all live.now drops.now rest }
        ensures target { result.tables.target ≡ target }
        ensures live { result.live.now ≡ live.now }
        ensures drops { result.drops.now ≡ drops.now }
    {
        Keeper {
            alloc,
            live,
            drops,
            tables: CutTables::new(alloc, target),
            held: None,
            before: 0,
        }
    }

    // Whether an entry of the key is held.
    fn holds_key(&self, key: &[u8]) -> bool
        ensures { result ≡ stands_held self.now.held key.now }
    {
        match &self.held {
            Some(held) => held.key.as_bytes() == key,
            None => false,
        }
    }

    // Lets the entry go that is held: to the tables, unless it is a tombstone that goes.
    fn let_go(&mut self, goes_on: bool) -> Result<(), AllocError>
        requires cut { IsCutSoFar self.old.tables }
        requires drops { AreApart self.old.drops.now }
        ensures cut { OnOk result (IsCutSoFar self.new.tables) }
        ensures entries { OnOk result (rows_of self.new.tables
            ≡ rows_of self.old.tables ++ let_go self.old.drops.now goes_on self.old.held) }
        ensures held { OnOk result (self.new.held ≡ None) }
        ensures rest { OnOk result ((self.new.live ≡ self.old.live) × (self.new.drops ≡ self.old.drops)
            × (self.new.before ≡ self.old.before) × (self.new.tables.target ≡ self.old.tables.target)) }
    {
        match self.held.take() {
            Some(held) => {
                if goes_on || !may_go(self.drops, &held) {
                    self.tables.push(held)
                } else {
                    Ok(())
                }
            }
            None => Ok(()),
        }
    }

    // Holds the entry.
    fn hold(&mut self, entry: EntryRef<'_>) -> Result<(), AllocError>
        requires { Fits (entry_of entry) }
        ensures held { OnOk result (self.new.held ≡ Some (entry_of entry.entry)) }
        ensures rest { OnOk result ((self.new.live ≡ self.old.live) × (self.new.drops ≡ self.old.drops)
            × (self.new.before ≡ entry.entry.number) × (self.new.tables ≡ self.old.tables)) }
    {
        self.held = Some(owned(self.alloc, entry)?);
        self.before = entry.number;
        Ok(())
    }

    /// Takes the next entry.
    pub fn take(&mut self, entry: EntryRef<'_>) -> Result<(), AllocError>
        requires fits { Fits (entry_of entry) }
        requires cut { IsCutSoFar self.old.tables }
        requires live { DontFall self.old.live.now }
        requires drops { AreApart self.old.drops.now }
        ensures cut { OnOk result (IsCutSoFar self.new.tables) }
        ensures left { OnOk result ((rest : List Entry)
            → kept_in_all self.old (entry_of entry.entry ∷ rest) ≡ kept_in_all self.new rest) }
        ensures rest { OnOk result ((self.new.live ≡ self.old.live) × (self.new.drops ≡ self.old.drops)
            × (self.new.tables.target ≡ self.old.tables.target)) }
    {
        if !self.holds_key(entry.key) {
            self.let_go(false)?;
            return self.hold(entry);
        }
        if is_read_between(self.live, entry.number, self.before) {
            self.let_go(true)?;
            return self.hold(entry);
        }
        self.before = entry.number;
        Ok(())
    }

    /// The tables, after the last entry.
    pub fn finish(mut self) -> Result<Vec<Entries>, AllocError>
        requires cut { IsCutSoFar self.tables }
        requires drops { AreApart self.drops.now }
        ensures entries { IfOk result (λ tables. joined tables.items ≡ kept_in_all self.entry []) }
        ensures cut { IfOk result (λ tables. tables.items
            ≡ cut_tables self.entry.tables.target (kept_in_all self.entry [])) }
    {
        self.let_go(false)?;
        let Keeper {
            alloc: _,
            live: _,
            drops: _,
            tables,
            held: _,
            before: _,
        } = self;
        tables.into_vec()
    }
}
