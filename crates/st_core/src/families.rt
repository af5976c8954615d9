ghost use Rattle.std.specs.Prelude.{◌≡◌, ◌+◌, ◌<◌, ◌^◌, [], IfOk, IfSome, OnOk, length};
ghost use Rattle.std.specs.Option.{option_copied};
ghost use Rattle.std.specs.List.{AllByRecursion};
ghost use Rattle.st_base.specs.Map.{changed_at, set_at, value_at, without};
ghost use Rattle.st_model.specs.Apply.{op_entry, op_family};
ghost use Rattle.core_model.specs.Picture.{FamilyView as FamilyPicture};
ghost use Rattle.core_model.specs.Step.{with_memory_entry, with_operations};
ghost use Rattle.st_version.specs.State.{named_views};
ghost use Rattle.st_core.specs.Written.{AreWithin};

use crate::operations::{op_entry, op_family};
use st_base::{Entries, Entry, Family, Rows};
use st_model::Op;
use st_version::{FamilyView, State};
use std::alloc::{AllocError, Global};
use std::collections::BTreeMap;
use std::marker::Model;
use std::sync::Arc;

/// The families of the next state, by name. It shares the views that don't change.
#[derive(Drop)]
pub(crate) struct Families<T: Rows + Drop> {
    by_name: BTreeMap<Family, Arc<FamilyView<T>>>,
}

impl<T: Rows + Drop> Model for Families<T> {
    ghost use Rattle.std.specs.Prelude.{List, ℕ};
    ghost use Rattle.core_model.specs.Picture.{FamilyView as FamilyPicture};
    ghost use Rattle.st_version.specs.State.{named_views};

    ghost Value = { List (List ℕ × FamilyPicture) };

    ghost view = { λ families. named_views families.by_name.entries };
}

// The family with one entry more in its memtable.
fn with_entry<T: Rows + Drop>(
    alloc: Global,
    family: &FamilyView<T>,
    entry: Entry,
) -> Result<FamilyView<T>, AllocError>
    requires { AllByRecursion (λ other. other.number < entry.number) family.now.mem }
    ensures { IfOk result (λ next. next ≡ with_memory_entry entry family.now) }
{
    let mut entries = Entries::new(alloc);
    entries.push(entry)?;
    let mem = Arc::new(alloc, family.mem().with(&entries)?)?;
    family.with_mem(alloc, mem)
}

impl<T: Rows + Drop> Families<T> {
    // No family.
    pub(crate) fn none(alloc: Global) -> Families<T>
        ensures { result ≡ [] }
    {
        Families {
            by_name: BTreeMap::new(alloc),
        }
    }

    // Those of the state.
    pub(crate) fn new(state: &State<T>) -> Result<Families<T>, AllocError>
        ensures { IfOk result (λ families. families ≡ state.now.families) }
    {
        Ok(Families {
            by_name: state.families().clone()?,
        })
    }

    // The map.
    pub(crate) fn into_map(self) -> BTreeMap<Family, Arc<FamilyView<T>>>
        ensures { named_views result.entries ≡ self }
    {
        self.by_name
    }

    // The family of the name.
    fn get(&self, name: &Family) -> Option<&FamilyView<T>>
        ensures { option_copied result ≡ value_at self.now name.now }
    {
        match self.by_name.get(name) {
            Some(shared) => Some(shared),
            None => None,
        }
    }

    // Adds the family, or puts it in the place of the one of this name.
    pub(crate) fn insert(
        &mut self,
        name: Family,
        view: Arc<FamilyView<T>>,
    ) -> Result<(), AllocError>
        ensures { OnOk result (self.new ≡ set_at self.old name view.value) }
    {
        self.by_name.insert(name, view)?;
        Ok(())
    }

    // Takes the family of the name out.
    pub(crate) fn remove(&mut self, name: &Family)
        ensures { self.new ≡ without self.old name.now }
    {
        let _ = self.by_name.len();
        let _ = self.by_name.remove(name);
    }

    // Puts the view in the place of the one of this name, where there is one: this is each change that makes the view of that
    // one.
    pub(crate) fn replace(&mut self, name: &Family, view: Arc<FamilyView<T>>)
        ensures { (change : FamilyPicture → FamilyPicture)
            → IfSome (value_at self.old name.now) (λ family. view.value ≡ change family)
            → self.new ≡ changed_at self.old name.now change }
    {
        if let Some(place) = self.by_name.get_mut(name) {
            *place = view;
        }
    }

    // Puts the operation's entry under this number, which is above those of all entries of the memtables.
    fn write(&mut self, alloc: Global, op: &Op, number: u64) -> Result<(), AllocError>
        requires { AllByRecursion (λ named. AllByRecursion (λ entry. entry.number < number) named.1.mem) self.old }
        ensures { OnOk result
            (self.new ≡ changed_at self.old (op_family op.now) (with_memory_entry (op_entry number op.now))) }
    {
        let name = op_family(op);
        let Some(family) = self.get(name) else {
            return Ok(());
        };
        let entry = op_entry(op, number)?;
        let view = Arc::new(alloc, with_entry(alloc, family, entry)?)?;
        self.replace(name, view);
        Ok(())
    }

    // The families with the operations' entries, of which the first takes the number after `last`.
    fn with_each(self, alloc: Global, last: u64, ops: &[Op]) -> Result<Families<T>, AllocError>
        requires within { AreWithin last self }
        requires numbers { last + length ops.now < 2 ^ 64 }
        ensures { IfOk result (λ families. families ≡ with_operations last ops.now self) }
    {
        let mut families = self;
        let mut number = last;
        for op in ops {
            number += 1;
            families.write(alloc, op, number)?;
        }
        Ok(families)
    }

    // The same, where no entry is above the number of the last operation.
    pub(crate) fn with_operations(
        self,
        alloc: Global,
        last: u64,
        ops: &[Op],
    ) -> Result<Families<T>, AllocError>
        requires within { AreWithin last self }
        requires numbers { last + length ops.now < 2 ^ 64 }
        ensures value { IfOk result (λ families. families ≡ with_operations last ops.now self) }
        ensures within { IfOk result (λ families. AreWithin (last + length ops.now) families) }
    {
        let families = self.with_each(alloc, last, ops)?;
        Ok(families)
    }
}
