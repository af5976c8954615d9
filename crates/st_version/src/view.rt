ghost use Rattle.std.specs.Prelude.{◌≡◌, ◌≤◌, ◌↔◌, ◌∷◌, ◌++◌, [], IfOk, IsTrue, OnOk, map, option_map};
ghost use Rattle.core_model.specs.Picture.{find_mark, level_at, new_view, runs_of, walk};
ghost use Rattle.st_base.specs.Levels.{levels_of};
ghost use Rattle.st_base.specs.Rows.{mark_of};
ghost use Rattle.st_merge.specs.Scan.{cut_pairs, live_pairs};
ghost use Rattle.st_order.specs.Order.{between};
ghost use Rattle.st_order.specs.Sorted.{merged};
ghost use Rattle.job_model.specs.ByKey.{IsByKey};
ghost use Rattle.st_version.specs.Held.{entries_in, tables_of};
ghost use Rattle.st_version.specs.Replace.{AreTables, FitLevel, replaced};
ghost use Rattle.st_version.specs.Run.{entries_of_run};

use crate::finding::{in_memtable, in_memtables, in_tables};
use crate::fitting::{are_apart, are_filled};
use crate::held::Held;
use crate::levels::in_levels;
use crate::parts::{push_levels, push_memtable, push_memtables};
use crate::replacing::{changed_levels, push_all, push_staying};
use crate::run::Run;
use st_base::{Key, Levels, List, MarkRef, Rows, Scratch, Value};
use st_memtable::Mem;
use st_merge::scan;
use std::alloc::{AllocError, Global};
use std::marker::Model;
use std::sync::Arc;

/// A column family: its memtable, the sealed ones from the newest on, and its tables, those of level 0 from the newest on
/// and those of levels 1 to 6 by key, where no two of a level meet. All parts are shared, so that a view with one part
/// changed copies no other.
#[derive(Drop)]
pub struct FamilyView<T: Rows + Drop> {
    id: u32,
    mem: Arc<Mem>,
    sealed: List<Arc<Mem>>,
    levels: Levels<Arc<Held<T>>>,
}

impl<T: Rows + Drop> Model for FamilyView<T> {
    ghost use Rattle.std.specs.Prelude.{map};
    ghost use Rattle.core_model.specs.Picture.{FamilyView as FamilyPicture};
    ghost use Rattle.st_base.specs.Levels.{levels_of};
    ghost use Rattle.st_version.specs.Held.{entries_in, tables_of};
    ghost use Rattle.st_version.specs.Replace.{AreLevels};

    ghost Value = { FamilyPicture };

    ghost view = { λ family. record {
      id = family.id;
      mem = family.mem.value.entries;
      sealed = entries_in family.sealed;
      levels = map tables_of (levels_of family.levels);
    } };

    ghost invariant = { λ family. AreLevels (map tables_of (levels_of family.levels)) };
}

// No table, shared by itself.
fn no_tables<T: Rows + Drop>(alloc: Global) -> Result<Arc<List<Arc<Held<T>>>>, AllocError>
    ensures { IfOk result (λ tables. tables.value ≡ []) }
{
    Ok(Arc::new(alloc, List::new(alloc))?)
}

// Seven levels without tables.
fn no_levels<T: Rows + Drop>(alloc: Global) -> Result<Levels<Arc<Held<T>>>, AllocError>
    ensures { IfOk result (λ levels. map tables_of (levels_of levels)
        ≡ [] ∷ [] ∷ [] ∷ [] ∷ [] ∷ [] ∷ [] ∷ []) }
{
    let none = no_tables(alloc)?;
    Ok(Levels {
        zero: none.clone()?,
        one: none.clone()?,
        two: none.clone()?,
        three: none.clone()?,
        four: none.clone()?,
        five: none.clone()?,
        six: none,
    })
}

// The same levels, shared once more.
fn same_levels<T: Rows + Drop>(
    levels: &Levels<Arc<Held<T>>>,
) -> Result<Levels<Arc<Held<T>>>, AllocError>
    ensures { IfOk result (λ same. map tables_of (levels_of same) ≡ map tables_of (levels_of levels.now)) }
{
    Ok(Levels {
        zero: levels.zero.clone()?,
        one: levels.one.clone()?,
        two: levels.two.clone()?,
        three: levels.three.clone()?,
        four: levels.four.clone()?,
        five: levels.five.clone()?,
        six: levels.six.clone()?,
    })
}

// Puts these memtables at the end, shared once more.
fn share_all(list: &mut List<Arc<Mem>>, memtables: &[Arc<Mem>]) -> Result<(), AllocError>
    ensures { OnOk result (entries_in list.new ≡ entries_in list.old ++ entries_in memtables.now) }
{
    for mem in memtables {
        list.push(mem.clone()?)?;
    }
    Ok(())
}

impl<T: Rows + Drop> FamilyView<T> {
    /// A family without memory and tables.
    pub fn new(alloc: Global, id: u32) -> Result<FamilyView<T>, AllocError>
        ensures { IfOk result (λ family. family ≡ new_view id) }
    {
        Ok(FamilyView {
            id,
            mem: Arc::new(alloc, Mem::new(alloc))?,
            sealed: List::new(alloc),
            levels: no_levels(alloc)?,
        })
    }

    /// The family's id.
    pub fn id(&self) -> u32
        ensures { result ≡ self.now.id }
    {
        self.id
    }

    /// The memtable that is written to.
    pub fn mem(&self) -> &Arc<Mem>
        ensures { result.now.value.entries ≡ self.now.mem }
    {
        &self.mem
    }

    /// The sealed memtables, the newest first.
    pub fn sealed(&self) -> &[Arc<Mem>]
        ensures { entries_in result.now ≡ self.now.sealed }
    {
        self.sealed.as_slice()
    }

    /// The tables of a level: of level 0 from the newest on, of the others by key, where each has an entry and no two meet.
    pub fn level(&self, level: u8) -> &[Arc<Held<T>>]
        requires { level ≤ 6 }
        ensures tables { tables_of result.now ≡ level_at self.now level }
        ensures rows { AreTables (level_at self.now level) }
        ensures by_key { 1 ≤ level → IsByKey (runs_of (level_at self.now level)) }
    {
        self.levels.at(level)
    }

    /// The family with this memtable in place of its own.
    pub fn with_mem(&self, alloc: Global, mem: Arc<Mem>) -> Result<FamilyView<T>, AllocError>
        ensures { IfOk result (λ family. family ≡ record self.now { mem = mem.value.entries }) }
    {
        let mut sealed = List::new(alloc);
        share_all(&mut sealed, self.sealed.as_slice())?;
        Ok(FamilyView {
            id: self.id,
            mem,
            sealed,
            levels: same_levels(&self.levels)?,
        })
    }

    /// The family with its memtable the newest of the sealed ones, settled in one run, and an empty one in its place.
    pub fn with_sealed(&self, alloc: Global) -> Result<FamilyView<T>, AllocError>
        ensures { IfOk result (λ family. family
            ≡ record self.now { mem = []; sealed = self.now.mem ∷ self.now.sealed }) }
    {
        let mut sealed = List::new(alloc);
        sealed.push(Arc::new(alloc, self.mem.settled()?)?)?;
        share_all(&mut sealed, self.sealed.as_slice())?;
        Ok(FamilyView {
            id: self.id,
            mem: Arc::new(alloc, Mem::new(alloc))?,
            sealed,
            levels: same_levels(&self.levels)?,
        })
    }

    /// Whether these tables may take the place of the inputs at the level: each has an entry, and below level 0 they meet
    /// neither each other nor what stays there.
    pub fn fits(
        &self,
        alloc: Global,
        inputs: &[u64],
        level: u8,
        outputs: &[Arc<Held<T>>],
    ) -> Result<bool, AllocError>
        requires { level ≤ 6 }
        ensures { IfOk result (λ fits. IsTrue fits ↔ FitLevel inputs.now level (tables_of outputs.now) self.now) }
    {
        if !are_filled(outputs) {
            return Ok(false);
        }
        if level == 0 {
            return Ok(true);
        }
        let mut all = Vec::new(alloc);
        push_all(&mut all, outputs)?;
        push_staying(&mut all, self.levels.at(level), inputs)?;
        Ok(are_apart(all.as_slice()))
    }

    /// The family without the tables of these files, and with the outputs at a level: in front in level 0, by first key
    /// elsewhere. Levels that don't change are shared, and so are all tables and memtables.
    pub fn replace(
        &self,
        alloc: Global,
        inputs: &[u64],
        level: u8,
        outputs: &[Arc<Held<T>>],
    ) -> Result<FamilyView<T>, AllocError>
        requires level { level ≤ 6 }
        requires fit { FitLevel inputs.now level (tables_of outputs.now) self.now }
        ensures { IfOk result (λ family. family ≡ replaced inputs.now level (tables_of outputs.now) self.now) }
    {
        let mut sealed = List::new(alloc);
        share_all(&mut sealed, self.sealed.as_slice())?;
        Ok(FamilyView {
            id: self.id,
            mem: self.mem.clone()?,
            sealed,
            levels: changed_levels(alloc, &self.levels, inputs, level, outputs)?,
        })
    }

    /// The family with these memtables in place of its own; the sealed ones stand newest first.
    pub fn with_memtables(
        &self,
        mem: Arc<Mem>,
        sealed: List<Arc<Mem>>,
    ) -> Result<FamilyView<T>, AllocError>
        ensures { IfOk result (λ family. family
            ≡ record self.now { mem = mem.value.entries; sealed = entries_in sealed }) }
    {
        Ok(FamilyView {
            id: self.id,
            mem,
            sealed,
            levels: same_levels(&self.levels)?,
        })
    }

    /// All runs of the family, as parts of a merge: those of the memtables, and the tables. The parts share all entries.
    pub fn parts(&self, alloc: Global) -> Result<Vec<Run<T>>, AllocError>
        ensures { IfOk result (λ parts. merged (map entries_of_run parts.items) ≡ merged (walk self.now)) }
    {
        let mut parts = Vec::new(alloc);
        push_memtable(&mut parts, &self.mem)?;
        push_memtables(&mut parts, self.sealed.as_slice())?;
        push_levels(&mut parts, &self.levels)?;
        Ok(parts)
    }

    /// The pairs that reads at the number find for the keys from `first` to `last`, in key order: at most `limit`, and none
    /// behind the pair with which their keys and values reach 1,048,576 bytes, which still stands there.
    pub fn scan(
        &self,
        alloc: Global,
        first: &Key,
        last: &Key,
        number: u64,
        limit: usize,
    ) -> Result<Vec<(Key, Value)>, AllocError>
        ensures { IfOk result (λ pairs. pairs.items
            ≡ cut_pairs limit 0 (live_pairs (between first.now last.now) number (merged (walk self.now)))) }
    {
        let parts = self.parts(alloc)?;
        scan(alloc, parts.as_slice(), first, last, number, limit)
    }

    /// The mark that a read of the key at the number finds: the first at or below the number in the memtables from the
    /// newest on, in level 0 from the newest on, and then down the levels, where it looks into one table each. It takes no
    /// memory, but what it borrows of the scratch.
    pub fn find<'a>(&'a self, key: &[u8], number: u64, scratch: &mut Scratch) -> Option<MarkRef<'a>>
        ensures { option_map mark_of result ≡ find_mark self.now number key.now }
    {
        if let Some(mark) = in_memtable(&self.mem, key, number) {
            return Some(mark);
        }
        if let Some(mark) = in_memtables(self.sealed.as_slice(), key, number) {
            return Some(mark);
        }
        if let Some(mark) = in_tables(self.levels.at(0), key, number, scratch) {
            return Some(mark);
        }
        in_levels(&self.levels, key, number, scratch)
    }
}
