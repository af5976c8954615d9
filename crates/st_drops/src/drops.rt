ghost use Rattle.std.specs.Prelude.{◌≡◌, ◌≤◌, ◌++◌, ◌∷◌, [], IfOk, OnOk, length, map, flat_map};
ghost use Rattle.std.specs.Option.{option_copied};
ghost use Rattle.st_base.specs.Range.{keys_of};
ghost use Rattle.job_model.specs.Drops.{drop_runs, lower_ranges_in, rising_keys};
ghost use Rattle.st_level.specs.Stops.{AreByKey, runs_of_levels};
ghost use Rattle.st_drops.specs.Ends.{IsRaised, is_before_end};
ghost use Rattle.st_drops.specs.Left.{TakesTurn};

use crate::cover::Cover;
use crate::ends::{least_from, raise};
use crate::lower::cover_below;
use st_base::{Bytes, KEY_BYTES, Key, KeyRange, Levels, MakeFault, Rows, Scratch};
use std::alloc::{AllocError, Global};

// The key of these bytes, of which there are few enough.
fn key_of(alloc: Global, bytes: &[u8]) -> Result<Key, AllocError>
    requires { length bytes.now ≤ KEY_BYTES }
    ensures { IfOk result (λ key. key ≡ bytes.now) }
{
    match Key::new(alloc, bytes) {
        Ok(key) => Ok(key),
        Err(MakeFault::OutOfMemory) => Err(AllocError),
        Err(MakeFault::Limit) => unreachable!(),
    }
}

// A search under way: of the inputs' keys those at or after the bound are left.
#[derive(Drop)]
pub struct Search {
    pub bound: Bytes,
    pub key: Scratch,
    pub last: Scratch,
    pub scratch: Scratch,
}

impl Search {
    // The search in front of all keys.
    fn new(alloc: Global) -> Result<Search, AllocError>
        ensures { IfOk result (λ search. search.bound ≡ []) }
    {
        Ok(Search {
            bound: Bytes::new(alloc),
            key: Scratch::new(alloc)?,
            last: Scratch::new(alloc)?,
            scratch: Scratch::new(alloc)?,
        })
    }

    // Goes on from this key.
    fn go_to(&mut self, key: &[u8]) -> Result<(), AllocError>
        ensures { OnOk result (self.new.bound ≡ key.now) }
    {
        self.bound.truncate(0);
        self.bound.extend_from_slice(key)
    }

    // Goes on behind this key: from the least byte string above it.
    fn go_behind(&mut self, key: &[u8]) -> Result<(), AllocError>
        ensures { OnOk result (self.new.bound ≡ key.now ++ 0 ∷ []) }
    {
        self.go_to(key)?;
        self.bound.push(0)
    }

    // The range from the key to the last one of the inputs before the end.
    fn range_to<T: Rows>(
        &mut self,
        alloc: Global,
        inputs: &[T],
        end: Option<&[u8]>,
    ) -> Result<KeyRange, AllocError>
        requires { length self.old.key ≤ KEY_BYTES }
        ensures first { IfOk result (λ range. range.first ≡ self.old.key) }
        ensures last { IfOk result (λ range. IsRaised (is_before_end (option_copied end.entry))
            (flat_map keys_of (map T.rows inputs.now)) self.old.key range.last) }
        ensures bound { self.new.bound ≡ self.old.bound }
    {
        self.last.keep_and_add(0, self.key.as_slice());
        raise(inputs, end, &mut self.last, &mut self.scratch);
        Ok(KeyRange {
            first: key_of(alloc, self.key.as_slice())?,
            last: key_of(alloc, self.last.as_slice())?,
        })
    }

    // Takes the next key that is left. Where it lies in a lower range, the search goes on behind that; else the range from it
    // to the last key in front of the next lower range is put down, and the search goes on there. False where it is over.
    fn turn<T: Rows, U: Rows>(
        &mut self,
        alloc: Global,
        inputs: &[T],
        levels: &Levels<U>,
        level: u8,
        drops: &mut Vec<KeyRange>,
    ) -> Result<bool, AllocError>
        requires level { level ≤ 6 }
        requires by_key { AreByKey (runs_of_levels U.rows levels.now) }
        ensures { IfOk result (λ more. TakesTurn (lower_ranges_in (runs_of_levels U.rows levels.now) level)
            (rising_keys (map T.rows inputs.now)) self.old.bound drops.old.items more self.new.bound drops.new.items) }
    {
        if !least_from(
            inputs,
            self.bound.as_slice(),
            &mut self.key,
            &mut self.scratch,
        ) {
            return Ok(false);
        }
        match cover_below(levels, level, self.key.as_slice()) {
            Cover::Through(last) => {
                self.go_behind(last)?;
                Ok(true)
            }
            Cover::NoneBefore(end) => {
                drops.push(self.range_to(alloc, inputs, Some(end))?)?;
                self.go_to(end)?;
                Ok(true)
            }
            Cover::Never => {
                drops.push(self.range_to(alloc, inputs, None)?)?;
                Ok(false)
            }
        }
    }
}

/// The ranges in which a compaction of these inputs into the level may drop tombstones: the keys of the inputs that lie in
/// the range of no table below the level fall into runs that no such range parts, and each run gives one range, from its
/// first key to its last. They rise, and none meets another. The tables of levels 1 to 6 are to stand by key.
///
/// For each run, and for each lower table's range that has a key of the inputs, there is one turn: at most two searches by
/// halves in each input, and one over the tables of each lower level. Entries are never walked. Memory: three scratches, and
/// the ranges.
pub fn drop_ranges<T: Rows, U: Rows>(
    alloc: Global,
    inputs: &[T],
    levels: &Levels<U>,
    level: u8,
) -> Result<Vec<KeyRange>, AllocError>
    requires level { level ≤ 6 }
    requires by_key { AreByKey (runs_of_levels U.rows levels.now) }
    ensures { IfOk result (λ drops. drops.items
        ≡ drop_runs (lower_ranges_in (runs_of_levels U.rows levels.now) level)
        (rising_keys (map T.rows inputs.now))) }
{
    let mut search = Search::new(alloc)?;
    let mut drops = Vec::new(alloc);
    while search.turn(alloc, inputs, levels, level, &mut drops)? {}
    Ok(drops)
}
