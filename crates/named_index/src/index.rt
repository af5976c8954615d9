// What edits name: ids and names of families, files of tables, logs.
ghost use Rattle.std.specs.Prelude.{◌≡◌, ◌&&◌, ℕ, IfOk, Some, false, is_some, nat_le, nat_lt, true};
ghost use Rattle.std.specs.Option.{option_copied};
ghost use Rattle.std.specs.BTreeMap.{get};
ghost use Rattle.std.specs.Ordering.{nat_cmp};
ghost use Rattle.manifest_edits.specs.Edits.{Named, named_none, AddFamily, AddLog, AddTable, DropFamily, DropLog, DropTable};
ghost use Rattle.manifest_edits.specs.Edits.{Flushed};
ghost use Rattle.named_index.specs.Knows.{IsJudged, Knows, belongs_to, is_current, is_owned};
ghost use Rattle.st_base.specs.Bytes.{bytes_cmp};

use st_base::Family;
use std::alloc::{AllocError, Global};
use std::collections::{BTreeMap, BTreeSet};

// A family's id, and the family's number: an id that comes back has another number.
type Owner = (u32, u64);

/// What edits name. A name and a table of a dropped family stay under its number, so that it is dropped without a walk
/// along its tables.
#[derive(Drop)]
pub struct NamedIndex {
    // The number of the family with this id.
    ids: BTreeMap<u32, u64>,
    names: BTreeMap<Family, Owner>,
    tables: BTreeMap<u64, Owner>,
    logs: BTreeSet<u64>,
    // The number of the next family.
    next: u64,
}

// Whether the family of this id that is there has this number.
fn is_current(ids: &BTreeMap<u32, u64>, id: u32, number: u64) -> bool
    ensures { result ≡ is_current (get nat_cmp ids.now id) number }
{
    match ids.get(&id) {
        None => false,
        Some(current) => *current == number,
    }
}

// Whether the family that had it is there.
fn is_owned(ids: &BTreeMap<u32, u64>, owner: Option<&Owner>) -> bool
    ensures { result ≡ is_owned (get nat_cmp ids.now) (option_copied owner.entry) }
{
    match owner {
        None => false,
        Some((id, number)) => is_current(ids, *id, *number),
    }
}

// Whether a table may be placed so: files 0 and 1 have their own meaning, and there are seven levels.
fn may_place(level: u8, file: u64) -> bool
    ensures { result ≡ (nat_lt 1 file && nat_le level 6) }
{
    file > 1 && level <= 6
}

impl NamedIndex {
    /// Nothing is named.
    pub fn new(alloc: Global) -> NamedIndex
        ensures { Knows result named_none }
    {
        NamedIndex {
            ids: BTreeMap::new(alloc),
            names: BTreeMap::new(alloc),
            tables: BTreeMap::new(alloc),
            logs: BTreeSet::new(alloc),
            next: 0,
        }
    }

    // Adds a family whose id and name are free.
    fn make_family(&mut self, id: u32, name: &Family) -> Result<(), AllocError>
        ensures { (named : Named) → Knows self.old named → is_some (get nat_cmp self.old.ids id) ≡ false
            → is_owned (get nat_cmp self.old.ids) (get bytes_cmp self.old.names name.now) ≡ false
            → IfOk result (λ _. IsJudged self.new named (AddFamily id name.now) true) }
    {
        let number = self.next;
        if number == u64::MAX {
            return Err(AllocError);
        }
        self.ids.insert(id, number)?;
        self.names.insert(name.clone()?, (id, number))?;
        self.next = number + 1;
        Ok(())
    }

    /// A family is added: right where neither its id nor its name is taken. After a wrong edit, or none of memory,
    /// nothing is said of what is named.
    pub fn add_family(&mut self, id: u32, name: &Family) -> Result<bool, AllocError>
        ensures { (named : Named) → Knows self.old named
            → IfOk result (IsJudged self.new named (AddFamily id name.now)) }
    {
        if self.ids.contains_key(&id) {
            return Ok(false);
        }
        if is_owned(&self.ids, self.names.get(name)) {
            return Ok(false);
        }
        self.make_family(id, name)?;
        Ok(true)
    }

    /// A family is dropped, with its tables: right where it is there.
    pub fn drop_family(&mut self, id: u32) -> bool
        ensures { (named : Named) → Knows self.old named → IsJudged self.new named (DropFamily id) result }
    {
        self.ids.remove(&id).is_some()
    }

    // A table is added to a family that is there.
    fn own_table(&mut self, owner: Owner, level: u8, file: u64) -> Result<bool, AllocError>
        ensures { (named : Named) → (length number : ℕ) → Knows self.old named
            → get nat_cmp self.old.ids owner.0 ≡ Some owner.1 → IfOk result (IsJudged self.new named
            (AddTable owner.0 (record { level = level; file = file; length = length; number = number }))) }
    {
        if !may_place(level, file) {
            return Ok(false);
        }
        if is_owned(&self.ids, self.tables.get(&file)) {
            return Ok(false);
        }
        self.tables.insert(file, owner)?;
        Ok(true)
    }

    /// A table is added: right where its family is there, no table has its file, the file is above 1 and the level at
    /// most 6.
    pub fn add_table(&mut self, family: u32, level: u8, file: u64) -> Result<bool, AllocError>
        ensures { (named : Named) → (length number : ℕ) → Knows self.old named → IfOk result (IsJudged self.new named
            (AddTable family (record { level = level; file = file; length = length; number = number }))) }
    {
        match self.ids.get(&family) {
            None => Ok(false),
            Some(&number) => self.own_table((family, number), level, file),
        }
    }

    // Whether the family has a table of this file.
    fn has_table(&self, family: u32, file: u64) -> bool
        ensures { result ≡ belongs_to family (get nat_cmp self.now.ids) (get nat_cmp self.now.tables file) }
    {
        match self.tables.get(&file) {
            None => false,
            Some((id, number)) => *id == family && is_current(&self.ids, family, *number),
        }
    }

    /// A table is dropped: right where the family has it.
    pub fn drop_table(&mut self, family: u32, file: u64) -> bool
        ensures { (named : Named) → Knows self.old named → IsJudged self.new named (DropTable family file) result }
    {
        if !self.has_table(family, file) {
            return false;
        }
        let _ = self.tables.remove(&file);
        true
    }

    /// The operations of a family up to a number are in its tables: right where the family is there.
    pub fn set_flushed(&self, family: u32) -> bool
        ensures { (named : Named) → (number : ℕ) → Knows self.now named
            → IsJudged self.now named (Flushed family number) result }
    {
        self.ids.contains_key(&family)
    }

    /// A log is added: right where it isn't there, and its file is above 1.
    pub fn add_log(&mut self, file: u64) -> Result<bool, AllocError>
        ensures { (named : Named) → Knows self.old named → IfOk result (IsJudged self.new named (AddLog file)) }
    {
        if file <= 1 {
            return Ok(false);
        }
        if self.logs.contains(&file) {
            return Ok(false);
        }
        self.logs.insert(file)?;
        Ok(true)
    }

    /// A log is dropped: right where it is there.
    pub fn drop_log(&mut self, file: u64) -> bool
        ensures { (named : Named) → Knows self.old named → IsJudged self.new named (DropLog file) result }
    {
        self.logs.remove(&file)
    }
}
