ghost use Rattle.std.specs.Prelude.{◌≡◌, ◌≤◌, ◌<◌, ◌∷◌, ◌++◌, [], List, ℕ, OnOk, length};
ghost use Rattle.st_base.specs.Rows.{Fits, entry_of};

use crate::copies::{key_of, value_of};
use st_base::{EntryRef, KEY_BYTES, Key, MarkRef, SCAN_BYTES, VALUE_BYTES, Value};
use st_order::at_most;
use std::alloc::{AllocError, Global};

/// A scan under way: the pairs so far with the bytes of their keys and values, how many more may come, and the key that was
/// read last.
#[derive(Drop)]
pub struct Reader<'a> {
    pub alloc: Global,
    pub first: &'a [u8],
    pub last: &'a [u8],
    pub number: u64,
    pub pairs: Vec<(Key, Value)>,
    pub room: usize,
    pub bytes: usize,
    pub before: Option<Key>,
}

impl<'a> Reader<'a> {
    ghost use Rattle.st_base.specs.declared.entry.Entry.{Entry};
    ghost use Rattle.st_order.specs.Order.{between};
    ghost use Rattle.st_merge.specs.Reading.{read_all};
    ghost use Rattle.st_merge.specs.Scan.{cut_pairs, is_read_before, is_seen, live_pairs, pair_bytes};

    /// Before the first entry.
    pub fn new(
        alloc: Global,
        first: &'a [u8],
        last: &'a [u8],
        number: u64,
        limit: usize,
    ) -> Reader<'a>
        ensures all { (entries : List Entry) → read_all result entries
            ≡ cut_pairs limit 0 (live_pairs (between first.now last.now) number entries) }
        ensures few { 0 < result.room → result.bytes < SCAN_BYTES }
        ensures last { result.last.now ≡ last.now }
    {
        Reader {
            alloc,
            first,
            last,
            number,
            pairs: Vec::new(alloc),
            room: limit,
            bytes: 0,
            before: None,
        }
    }

    // Whether the entry lies in the range, at or below the number.
    fn is_seen(&self, entry: EntryRef<'_>) -> bool
        ensures { result
            ≡ is_seen (between self.now.first.now self.now.last.now) self.now.number (entry_of entry.entry) }
    {
        at_most(self.first, entry.key)
            && at_most(entry.key, self.last)
            && entry.number <= self.number
    }

    // Whether the key was read before.
    fn is_read(&self, key: &[u8]) -> bool
        ensures { result ≡ is_read_before self.now.before key.now }
    {
        match &self.before {
            Some(before) => before.as_bytes() == key,
            None => false,
        }
    }

    // Puts the pair behind the others.
    fn push(&mut self, key: &[u8], value: &[u8]) -> Result<(), AllocError>
        requires key { length key.now ≤ KEY_BYTES }
        requires value { length value.now ≤ VALUE_BYTES }
        requires room { 0 < self.old.room }
        requires few { self.old.bytes < SCAN_BYTES }
        ensures all { OnOk result ((pairs : List (List ℕ × List ℕ))
            → self.old.pairs.items ++ cut_pairs self.old.room self.old.bytes ((key.now, value.now) ∷ pairs)
            ≡ self.new.pairs.items ++ cut_pairs self.new.room self.new.bytes pairs) }
        ensures few { OnOk result (0 < self.new.room → self.new.bytes < SCAN_BYTES) }
        ensures rest { OnOk result ((self.new.first ≡ self.old.first) × (self.new.last ≡ self.old.last)
            × (self.new.number ≡ self.old.number) × (self.new.before ≡ self.old.before)) }
    {
        let pair = (key_of(self.alloc, key)?, value_of(self.alloc, value)?);
        self.pairs.push(pair)?;
        self.bytes += key.len() + value.len();
        self.room = if self.bytes >= SCAN_BYTES {
            0
        } else {
            self.room - 1
        };
        Ok(())
    }

    /// Takes the next entry, where a pair may still come.
    pub fn take(&mut self, entry: EntryRef<'_>) -> Result<(), AllocError>
        requires fits { Fits (entry_of entry) }
        requires room { 0 < self.old.room }
        requires few { self.old.bytes < SCAN_BYTES }
        ensures all { OnOk result ((entries : List Entry)
            → read_all self.old (entry_of entry.entry ∷ entries) ≡ read_all self.new entries) }
        ensures few { OnOk result (0 < self.new.room → self.new.bytes < SCAN_BYTES) }
        ensures last { OnOk result (self.new.last.now ≡ self.old.last.now) }
    {
        if !self.is_seen(entry) || self.is_read(entry.key) {
            return Ok(());
        }
        self.before = Some(key_of(self.alloc, entry.key)?);
        match entry.mark {
            MarkRef::Put(value) => self.push(entry.key, value),
            MarkRef::Gone => Ok(()),
        }
    }
}
