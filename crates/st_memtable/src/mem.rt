ghost use Rattle.std.specs.Prelude.{◌≡◌, ◌≤◌, ◌+◌, ◌^◌, [], ◌∷◌, IfOk, length, map, option_map};
ghost use Rattle.std.specs.Option.{option_copied};
ghost use Rattle.st_base.specs.Range.{entries_charge};
ghost use Rattle.st_base.specs.Rows.{mark_of, newest};
ghost use Rattle.st_order.specs.Columns.{Pairwise};
ghost use Rattle.st_order.specs.Least.{least_within};
ghost use Rattle.st_order.specs.Order.{between};
ghost use Rattle.st_order.specs.Sorted.{merged};
ghost use Rattle.st_memtable.specs.Memtable.{AreAbove, DifferInPosition, least_number, lengths_of, one_run, with_memory_entries, with_run};

use crate::more::{alone, join_all, more_runs, share};
use crate::run::{Run, mark_ref};
use crate::search::{first_of, newest};
use crate::totals::{charge_more, least_more};
use st_base::{Entries, MarkRef};
use std::alloc::{AllocError, Global};
use std::marker::Model;

/// A memtable, seen as its entries in order (`entries`) and its sorted runs, the oldest first (`runs`).
///
/// Each run has at least twice the entries of the next. Runs and entries are shared with the memtables that this one was
/// made from.
#[derive(Drop)]
pub struct Mem {
    alloc: Global,
    runs: Vec<Run>,
    charge: u64,
    least: Option<u64>,
}

impl Model for Mem {
    ghost use Rattle.st_order.specs.Sorted.{joined, sorted};
    ghost use Rattle.st_memtable.specs.Memtable.{MemView};
    ghost use Rattle.st_memtable.specs.Runs.{IsMemtable};

    ghost Value = { MemView };

    ghost view = { λ mem. record { entries = sorted (joined mem.runs.items); runs = mem.runs.items } };

    ghost invariant = { λ mem. IsMemtable mem.runs.items mem.charge mem.least };
}

impl Mem {
    /// The empty memtable, which takes no memory.
    pub fn new(alloc: Global) -> Mem
        ensures entries { result.entries ≡ [] }
        ensures runs { result.runs ≡ [] }
    {
        Mem {
            alloc,
            runs: Vec::new(alloc),
            charge: 0,
            least: None,
        }
    }

    /// The memtable with these entries too. This one stays as it is, and shares its entries and the runs that stay.
    ///
    /// An entry is copied once. The new entries are a run, which is joined with older runs while the run before it has
    /// fewer than twice its entries; a join copies references and no key or value.
    pub fn with(&self, entries: &Entries) -> Result<Mem, AllocError>
        requires above { AreAbove self.now.entries entries.now }
        requires apart { Pairwise DifferInPosition entries.now }
        ensures entries { IfOk result (λ mem. mem.entries ≡ with_memory_entries self.now.entries entries.now) }
        ensures lengths { IfOk result (λ mem. lengths_of mem.runs
            ≡ with_run (lengths_of self.now.runs) (length entries.now)) }
    {
        if entries.is_empty() {
            let shared = share(self.alloc, self.runs.as_slice(), self.runs.len())?;
            return Ok(Mem {
                alloc: self.alloc,
                runs: shared,
                charge: self.charge,
                least: self.least,
            });
        }
        let new = entries.as_slice();
        let charge = charge_more(self.charge, new);
        let least = least_more(self.least, new);
        let older = self.runs.as_slice();
        let runs = more_runs(self.alloc, older, new)?;
        Ok(Mem {
            alloc: self.alloc,
            runs,
            charge,
            least,
        })
    }

    /// The same entries in one run, or in none where there is none.
    pub fn settled(&self) -> Result<Mem, AllocError>
        ensures entries { IfOk result (λ mem. mem.entries ≡ self.now.entries) }
        ensures lengths { IfOk result (λ mem. lengths_of mem.runs ≡ one_run (length self.now.entries)) }
    {
        let entries = join_all(self.alloc, self.runs.as_slice())?;
        let runs = alone(self.alloc, entries)?;
        Ok(Mem {
            alloc: self.alloc,
            runs,
            charge: self.charge,
            least: self.least,
        })
    }

    /// The sorted runs, the oldest first. Each is a part of a merge, and their merged list is the memtable's.
    pub fn parts(&self) -> &[Run]
        ensures runs { result.now ≡ self.now.runs }
        ensures merged { merged result.now ≡ self.now.entries }
    {
        self.runs.as_slice()
    }

    /// How many runs there are: for n entries two to this number is at most n + 1.
    pub fn runs(&self) -> usize
        ensures value { result ≡ length self.now.runs }
        ensures few { 2 ^ result ≤ length self.now.entries + 1 }
    {
        self.runs.len()
    }

    /// The number and the mark of the newest entry of the key at or below the number: None exactly where there is none.
    /// It searches each run by halves, and takes no memory.
    pub fn find(&self, key: &[u8], number: u64) -> Option<(u64, MarkRef<'_>)>
        ensures { option_map (λ found. (found.0, mark_of found.1)) result
            ≡ newest self.now.entries key.now number }
    {
        match newest(self.runs.as_slice(), key, number) {
            Some(entry) => Some((entry.number, mark_ref(&entry.mark))),
            None => None,
        }
    }

    /// The least key from `first` to `last`: None exactly where there is none. It searches each run by halves, and takes no
    /// memory.
    pub fn range_has(&self, first: &[u8], last: &[u8]) -> Option<&[u8]>
        ensures { option_copied result ≡ least_within (between first.now last.now) (self.now.entries ∷ []) }
    {
        match first_of(self.runs.as_slice(), first, last) {
            Some(entry) => Some(entry.key.as_bytes()),
            None => None,
        }
    }

    /// The sum of its entries' charges, as far as 64 bits hold it. It is kept and not computed.
    pub fn charge(&self) -> u64
        ensures { result ≡ entries_charge self.now.entries }
    {
        self.charge
    }

    /// The least sequence number of its entries: None exactly where it is empty. It is kept and not computed.
    pub fn least(&self) -> Option<u64>
        ensures { result ≡ least_number self.now.entries }
    {
        self.least
    }
}
