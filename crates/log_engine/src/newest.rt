// The newest mark of each key.
ghost use Rattle.std.specs.Prelude.{◌≡◌, ℕ, List, IfOk, OnOk, None, if◌then◌else◌, map};
ghost use Rattle.std.specs.List.{AllByRecursion as Each};
ghost use Rattle.std.specs.Option.{option_copied};
ghost use Rattle.std.specs.BTreeMap.{IsOrdered};
ghost use Rattle.st_base.specs.Bytes.{bytes_cmp, same};
ghost use Rattle.st_base.specs.Entries.{entry_charge};
ghost use Rattle.st_model.specs.Apply.{op_key};
ghost use Rattle.st_model.specs.Contents.{as_entry, marks_charge};
ghost use Rattle.log_engine.specs.Newest.{HasRoom, newest_at, present};
ghost use Rattle.log_engine.specs.Op.{marks_after_all};

use crate::ops::key_of;
use st_base::{Key, Mark};
use st_model::Op;
use st_wal::Operation;
use std::alloc::{AllocError, Global};
use std::collections::BTreeMap;

/// The newest mark of each key. A key may have a slot without a mark, so that setting its mark takes no memory.
#[derive(Drop)]
pub struct Newest {
    map: BTreeMap<Key, Option<Mark>>,
}

// What a key with its mark counts against the capacity.
fn entry_charge(key: &Key, mark: &Mark) -> u64
    ensures { result ≡ entry_charge key.now mark.now }
{
    let value = match mark {
        Mark::Put(value) => value.as_bytes().len() as u64,
        Mark::Gone => 0,
    };
    32 + key.as_bytes().len() as u64 + value
}

impl Newest {
    /// No key has a mark.
    pub fn new(alloc: Global) -> Newest
        ensures { (key : List ℕ) → newest_at result key ≡ None }
    {
        Newest {
            map: BTreeMap::new(alloc),
        }
    }

    /// The key's newest mark.
    pub fn get(&self, key: &Key) -> Option<&Mark>
        ensures { option_copied result ≡ newest_at self.now key.now }
    {
        match self.map.get(key) {
            Some(slot) => slot.as_ref(),
            None => None,
        }
    }

    /// Makes a slot for the key's mark. The marks stay, with every answer.
    pub fn make_room(&mut self, key: &Key) -> Result<(), AllocError>
        ensures unchanged { (other : List ℕ) → newest_at self.new other ≡ newest_at self.old other }
        ensures room { OnOk result (HasRoom self.new key.now) }
        ensures rooms { (other : List ℕ) → HasRoom self.old other → HasRoom self.new other }
    {
        if !self.map.contains_key(key) {
            let _ = self.map.insert(key.clone()?, None)?;
        }
        Ok(())
    }

    /// Sets the mark of a key that has a slot, or takes it away.
    pub fn set(&mut self, key: &Key, mark: Option<Mark>)
        ensures set { HasRoom self.old key.now → (other : List ℕ)
            → newest_at self.new other ≡ (if same key.now other then mark else newest_at self.old other) }
        ensures rooms { (other : List ℕ) → HasRoom self.old other → HasRoom self.new other }
    {
        if let Some(slot) = self.map.get_mut(key) {
            *slot = mark;
        }
    }

    /// Makes a slot for the mark of each key that the operations name. The marks stay, with every answer.
    pub fn make_rooms(&mut self, ops: &[Op]) -> Result<(), AllocError>
        ensures unchanged { (key : List ℕ) → newest_at self.new key ≡ newest_at self.old key }
        ensures room { OnOk result (Each (λ op. HasRoom self.new (op_key op)) ops.now) }
    {
        for op in ops {
            self.make_room(key_of(op))?;
        }
        Ok(())
    }

    /// Sets the marks of the operations, in order. Their keys have slots, so it takes no memory.
    pub fn set_all(&mut self, operations: Vec<Operation>)
        requires { Each (λ operation. HasRoom self.old operation.1) operations.items }
        ensures { (key : List ℕ) → newest_at self.new key ≡ marks_after_all (newest_at self.old) operations.items key }
    {
        for (_, key, mark) in operations {
            self.set(&key, Some(mark));
        }
    }

    /// What the marks count against the capacity.
    pub fn charge(&self) -> u64
        ensures sum { result ≡ marks_charge 0 (map as_entry (present self.now.map.entries)) }
        ensures ordered { IsOrdered bytes_cmp self.now.map }
    {
        let mut sum: u64 = 0;
        for (key, slot) in self.map.iter() {
            if let Some(mark) = slot {
                sum = sum.saturating_add(entry_charge(key, mark));
            }
        }
        sum
    }
}
