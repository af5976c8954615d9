ghost use Rattle.std.specs.Prelude.{◌≡◌, ◌++◌, ◌∷◌, [], OnOk, OnErr, IfOk, map};
ghost use Rattle.std.specs.Option.{option_copied};
ghost use Rattle.st_base.specs.Bytes.{default_family};
ghost use Rattle.st_base.specs.Map.{value_at, set_at};
ghost use Rattle.st_model.specs.Contents.{as_entry, kept_marks};

use st_base::{Entries, Entry, Family, Key, KeyRange, List, MakeFault, Mark};
use std::alloc::{AllocError, Global};
use std::collections::BTreeMap;
use std::marker::Model;

/// A live snapshot: the place of the change that took it, and its sequence number.
#[derive(Clone, Copy, Drop)]
pub struct Snapshot {
    pub id: u64,
    pub number: u64,
}

/// The marks of some keys, one each, in key order.
#[derive(Drop)]
pub struct Marks {
    map: BTreeMap<Key, Mark>,
}

impl Model for Marks {
    ghost use Rattle.std.specs.Prelude.{List, ℕ};
    ghost use Rattle.st_base.specs.declared.entry.Mark.{Mark};

    ghost Value = { List (List ℕ × Mark) };

    ghost view = { λ marks. marks.map.entries };
}

impl Marks {
    /// No key has a mark.
    pub fn new(alloc: Global) -> Marks
        ensures { result ≡ [] }
    {
        Marks {
            map: BTreeMap::new(alloc),
        }
    }

    /// The key's mark.
    pub fn get(&self, key: &Key) -> Option<&Mark>
        ensures { option_copied result ≡ value_at self.now key.now }
    {
        self.map.get(key)
    }

    /// Sets the key's mark; an error leaves the marks as they were.
    pub fn set(&mut self, key: Key, mark: Mark) -> Result<(), AllocError>
        ensures ok { OnOk result (self.new ≡ set_at self.old key mark) }
        ensures err { OnErr result (self.new ≡ self.old) }
    {
        self.map.insert(key, mark)?;
        Ok(())
    }

    /// The keys with the marks that contents keep, in key order, under the number 0.
    pub fn kept(&self, alloc: Global, behind: bool) -> Result<Entries, AllocError>
        ensures { IfOk result (λ entries. entries ≡ map as_entry (kept_marks behind self.now)) }
    {
        let mut entries = List::new(alloc);
        for (key, mark) in self.map.iter() {
            push_kept(&mut entries, behind, key, mark)?;
        }
        Ok(entries)
    }
}

// Puts the key with its mark at the end, where contents keep it.
fn push_kept(entries: &mut Entries, behind: bool, key: &Key, mark: &Mark) -> Result<(), AllocError>
    ensures { OnOk result (entries.new ≡ entries.old ++ map as_entry (kept_marks behind ((key.now, mark.now) ∷ []))) }
{
    let keeps = match mark {
        Mark::Put(_) => true,
        Mark::Gone => behind,
    };
    if keeps {
        entries.push(Entry {
            key: key.clone()?,
            number: 0,
            mark: mark.clone()?,
        })?;
    }
    Ok(())
}

impl Clone for Marks {
    ghost is_clone = { λ marks copy. copy ≡ marks };

    fn clone(&self) -> Result<Marks, AllocError> {
        Ok(Marks {
            map: self.map.clone()?,
        })
    }
}

/// A column family of the model.
#[derive(Drop)]
pub struct ModelFamily {
    pub id: u32,
    /// The marks below all writes.
    pub base: Marks,
    /// The writes, the newest last.
    pub writes: Entries,
    /// The key ranges of the files that were taken in behind.
    pub ranges: List<KeyRange>,
    /// The keys that were written, taken in, or found on the disk at the opening.
    pub known: List<Key>,
}

impl ModelFamily {
    ghost use Rattle.st_model.specs.State.{new_family};

    /// A family in which no key was ever set.
    pub fn new(alloc: Global, id: u32) -> ModelFamily
        ensures { result ≡ new_family id }
    {
        ModelFamily {
            id,
            base: Marks::new(alloc),
            writes: List::new(alloc),
            ranges: List::new(alloc),
            known: List::new(alloc),
        }
    }
}

impl Clone for ModelFamily {
    ghost is_clone = { λ family copy. copy ≡ family };

    fn clone(&self) -> Result<ModelFamily, AllocError> {
        Ok(ModelFamily {
            id: self.id,
            base: self.base.clone()?,
            writes: self.writes.clone()?,
            ranges: self.ranges.clone()?,
            known: self.known.clone()?,
        })
    }
}

/// A state of the model.
#[derive(Drop)]
pub struct ModelState {
    /// How many changes were accepted since the opening.
    pub place: u64,
    /// The last sequence number.
    pub last: u64,
    /// What the writes and the files taken in count against the capacity.
    pub charge: u64,
    /// Whether the store takes files in behind.
    pub behind: bool,
    /// The families under their names, in the order of the names.
    pub families: List<(Family, ModelFamily)>,
    /// The id of the next family that is made.
    pub next_family: u32,
    /// The live snapshots, the newest last.
    pub live: List<Snapshot>,
}

// The name of the family that every store has.
fn default_family(alloc: Global) -> Result<Family, AllocError>
    ensures { IfOk result (λ family. family ≡ default_family) }
{
    match Family::new(alloc, b"default") {
        Ok(family) => Ok(family),
        Err(MakeFault::OutOfMemory) => Err(AllocError),
        Err(MakeFault::Limit) => unreachable!(),
    }
}

impl ModelState {
    ghost use Rattle.st_model.specs.State.{new_store};

    /// The state at the opening of a new store, which takes files in behind or doesn't: one family, `default`, and
    /// nothing in it.
    pub fn new_store(alloc: Global, behind: bool) -> Result<ModelState, AllocError>
        ensures { IfOk result (λ state. state ≡ new_store behind) }
    {
        let mut families = Vec::new(alloc);
        families.push((default_family(alloc)?, ModelFamily::new(alloc, 0)))?;
        Ok(ModelState {
            place: 0,
            last: 0,
            charge: 0,
            behind,
            families: List::from(families),
            next_family: 1,
            live: List::new(alloc),
        })
    }
}

impl Clone for ModelState {
    ghost is_clone = { λ state copy. copy ≡ state };

    fn clone(&self) -> Result<ModelState, AllocError> {
        Ok(ModelState {
            place: self.place,
            last: self.last,
            charge: self.charge,
            behind: self.behind,
            families: self.families.clone()?,
            next_family: self.next_family,
            live: self.live.clone()?,
        })
    }
}
