ghost use Rattle.std.specs.Prelude.{◌≡◌, ◌+◌, ◌-◌, ◌^◌, min, [], ◌∷◌, ◌++◌, IfOk, OnOk};
ghost use Rattle.st_base.specs.Entries.{entry_charge};
ghost use Rattle.job_model.specs.Compaction.{cut_tables};

use st_base::{Entries, Entry, Mark};
use std::alloc::{AllocError, Global};
use std::mem;

/// Tables that are cut by a target while they grow: a table is closed before the first entry of another key once its charges
/// have reached the target.
#[derive(Drop)]
pub struct CutTables {
    pub alloc: Global,
    pub target: u64,
    /// The closed tables.
    pub done: Vec<Entries>,
    /// The table that grows, and the charges of its entries; the sum stands still at the end of 64 bits.
    pub table: Entries,
    pub charge: u64,
}

// What the entry counts.
fn charge(entry: &Entry) -> u64
    ensures { result ≡ entry_charge entry.now.key entry.now.mark }
{
    let value = match &entry.mark {
        Mark::Put(value) => value.as_bytes().len(),
        Mark::Gone => 0,
    };
    32 + entry.key.as_bytes().len() as u64 + value as u64
}

impl CutTables {
    ghost use Rattle.st_order.specs.Sorted.{joined};
    ghost use Rattle.st_compact.specs.Cut.{IsCutSoFar, is_closed_before, rows_of};

    /// No table.
    pub fn new(alloc: Global, target: u64) -> CutTables
        ensures cut { IsCutSoFar result }
        ensures target { result.target ≡ target }
        ensures entries { rows_of result ≡ [] }
    {
        CutTables {
            alloc,
            target,
            done: Vec::new(alloc),
            table: Entries::new(alloc),
            charge: 0,
        }
    }

    // Whether the last table is closed before the entry.
    fn is_full_before(&self, entry: &Entry) -> bool
        ensures { result ≡ is_closed_before self.now.target self.now.charge self.now.table entry.now }
    {
        match self.table.as_slice().last() {
            Some(last) => self.charge >= self.target && last.key.as_bytes() != entry.key.as_bytes(),
            None => false,
        }
    }

    // Closes the last table.
    fn close(&mut self) -> Result<(), AllocError>
        ensures { OnOk result ((self.new.done.items ≡ self.old.done.items ++ self.old.table ∷ [])
            × (self.new.table ≡ []) × (self.new.charge ≡ 0) × (self.new.target ≡ self.old.target)) }
    {
        let table = mem::replace(&mut self.table, Entries::new(self.alloc));
        self.charge = 0;
        self.done.push(table)?;
        Ok(())
    }

    // Puts the entry behind those of the last table.
    fn add(&mut self, entry: Entry) -> Result<(), AllocError>
        ensures { OnOk result ((self.new.done ≡ self.old.done) × (self.new.table ≡ self.old.table ++ entry ∷ [])
            × (self.new.charge ≡ min (self.old.charge + entry_charge entry.key entry.mark) (2 ^ 64 - 1))
            × (self.new.target ≡ self.old.target)) }
    {
        self.charge = self.charge.saturating_add(charge(&entry));
        self.table.push(entry)?;
        Ok(())
    }

    /// Puts the entry behind all others.
    pub fn push(&mut self, entry: Entry) -> Result<(), AllocError>
        requires { IsCutSoFar self.old }
        ensures cut { OnOk result (IsCutSoFar self.new) }
        ensures entries { OnOk result (rows_of self.new ≡ rows_of self.old ++ entry ∷ []) }
        ensures target { OnOk result (self.new.target ≡ self.old.target) }
    {
        if self.is_full_before(&entry) {
            self.close()?;
            self.add(entry)
        } else {
            self.add(entry)
        }
    }

    /// The tables.
    pub fn into_vec(self) -> Result<Vec<Entries>, AllocError>
        requires { IsCutSoFar self }
        ensures joined { IfOk result (λ tables. joined tables.items ≡ rows_of self) }
        ensures cut { IfOk result (λ tables. tables.items ≡ cut_tables self.target (rows_of self)) }
    {
        let CutTables {
            alloc: _,
            target: _,
            mut done,
            table,
            charge: _,
        } = self;
        if table.is_empty() {
            return Ok(done);
        }
        done.push(table)?;
        Ok(done)
    }
}
