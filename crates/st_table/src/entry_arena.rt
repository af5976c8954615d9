//! An arena holds the keys and the values of entries one after the other, in the order in which they came:
//!
//! ```text
//! key | value | key | value | key | key | value | ..
//! ```
//!
//! Each entry has a slot that says where its key begins and ends and where its value ends. A tombstone has no value.
ghost use Rattle.std.specs.Prelude.{◌≡◌, ◌+◌, ◌<◌, [], ◌∷◌, ◌++◌, length, take, OnErr, OnOk, IfOk, Some, slice_get, option_map};
ghost use Rattle.st_base.specs.Entries.{mark_length};
ghost use Rattle.st_base.specs.Range.{entries_charge};
ghost use Rattle.st_base.specs.Rows.{entry_of, mark_of};
ghost use Rattle.st_table.specs.EntryArena.{AddsEntry, EndsValue, Lies, entry_in, mark_in};
ghost use Rattle.st_table.specs.Entries.{last_entry};

use st_base::{Bytes, ENTRY_CHARGE, EntryRef, List, MarkRef};
use std::alloc::{AllocError, Global};
use std::marker::Model;

/// Where an entry lies in an arena, by offsets in bytes, and its sequence number.
#[derive(Clone, Copy)]
struct EntrySlot {
    /// Where its key begins.
    start: usize,
    /// Where its key ends, and its value begins.
    key_end: usize,
    /// Where its value ends; a tombstone has none.
    value_end: Option<usize>,
    number: u64,
}

/// Entries in an arena, seen as the list of them. An entry takes a slot of 40 bytes beside its key and its value.
#[derive(Drop)]
pub(crate) struct EntryArena {
    bytes: Bytes,
    slots: List<EntrySlot>,
}

impl Model for EntryArena {
    ghost use Rattle.std.specs.Prelude.{List, map};
    ghost use Rattle.st_base.specs.declared.entry.Entry.{Entry};
    ghost use Rattle.st_table.specs.EntryArena.{Fill, entry_in};

    ghost Value = { List Entry };

    ghost view = { λ arena. map (entry_in arena.bytes) arena.slots };

    ghost invariant = { λ arena. Fill arena.bytes arena.slots };
}

// Appends the value of a mark, and answers where it ends, if there is one.
fn append_mark(bytes: &mut Bytes, mark: MarkRef<'_>) -> Result<Option<usize>, AllocError>
    ensures kept { take (length bytes.old) bytes.new ≡ bytes.old }
    ensures mark { IfOk result (λ end. mark_in bytes.new (length bytes.old) end ≡ mark_of mark.entry) }
    ensures lies { IfOk result (λ end. EndsValue (length bytes.new) (length bytes.old) end) }
    ensures longer { OnOk result (length bytes.new ≡ length bytes.old + mark_length (mark_of mark.entry)) }
{
    match mark {
        MarkRef::Put(value) => {
            bytes.extend_from_slice(value)?;
            Ok(Some(bytes.len()))
        }
        MarkRef::Gone => Ok(None),
    }
}

// Appends the key and the value of an entry, and answers where they lie.
fn append_entry(bytes: &mut Bytes, entry: EntryRef<'_>) -> Result<EntrySlot, AllocError>
    ensures kept { take (length bytes.old) bytes.new ≡ bytes.old }
    ensures entry { IfOk result (λ slot. entry_in bytes.new slot ≡ entry_of entry.entry) }
    ensures lies { IfOk result (λ slot. Lies (length bytes.new) slot) }
    ensures longer { OnOk result
        (length bytes.new ≡ length bytes.old + length entry.entry.key.now + mark_length (mark_of entry.entry.mark)) }
{
    let start = bytes.len();
    bytes.extend_from_slice(entry.key)?;
    let key_end = bytes.len();
    let value_end = append_mark(bytes, entry.mark)?;
    Ok(EntrySlot {
        start,
        key_end,
        value_end,
        number: entry.number,
    })
}

// Appends the key and the value of an entry, and its slot; where memory runs out, some of the entry may stand there.
fn append_slotted(
    bytes: &mut Bytes,
    slots: &mut List<EntrySlot>,
    entry: EntryRef<'_>,
) -> Result<(), AllocError>
    ensures kept { take (length bytes.old) bytes.new ≡ bytes.old }
    ensures ok { OnOk result (AddsEntry bytes.old bytes.new slots.old slots.new (entry_of entry.entry)) }
    ensures err { OnErr result (slots.new ≡ slots.old) }
{
    let slot = append_entry(bytes, entry)?;
    slots.push(slot)
}

// The entry of a slot.
fn entry_ref(bytes: &[u8], slot: EntrySlot) -> EntryRef<'_>
    requires { Lies (length bytes.now) slot }
    ensures { entry_of result ≡ entry_in bytes.now slot }
{
    let mark = match slot.value_end {
        Some(end) => MarkRef::Put(&bytes[slot.key_end..end]),
        None => MarkRef::Gone,
    };
    EntryRef {
        key: &bytes[slot.start..slot.key_end],
        number: slot.number,
        mark,
    }
}

impl EntryArena {
    /// No entries, which take no memory.
    pub(crate) fn new(alloc: Global) -> EntryArena
        ensures { result ≡ [] }
    {
        EntryArena {
            bytes: Bytes::new(alloc),
            slots: List::new(alloc),
        }
    }

    pub(crate) fn len(&self) -> usize
        ensures { result ≡ length self.now }
    {
        self.slots.len()
    }

    /// The entry at the index.
    pub(crate) fn entry(&self, index: usize) -> EntryRef<'_>
        requires { index < length self.now }
        ensures { slice_get self.now index ≡ Some (entry_of result) }
    {
        entry_ref(self.bytes.as_slice(), self.slots.as_slice()[index])
    }

    /// The last entry, if there is one.
    pub(crate) fn last(&self) -> Option<EntryRef<'_>>
        ensures { option_map entry_of result ≡ last_entry self.now }
    {
        let count = self.len();
        if count == 0 {
            None
        } else {
            Some(self.entry(count - 1))
        }
    }

    /// Appends the entry; an error leaves the entries as they were.
    pub(crate) fn push(&mut self, entry: EntryRef<'_>) -> Result<(), AllocError>
        ensures ok { OnOk result (self.new ≡ self.old ++ entry_of entry.entry ∷ []) }
        ensures err { OnErr result (self.new ≡ self.old) }
    {
        let before = self.bytes.len();
        match append_slotted(&mut self.bytes, &mut self.slots, entry) {
            Ok(()) => Ok(()),
            Err(error) => {
                self.bytes.truncate(before);
                Err(error)
            }
        }
    }

    /// The sum of the entries' charges, as far as 64 bits hold it. No entry is looked at.
    pub(crate) fn charge(&self) -> u64
        ensures { result ≡ entries_charge self.now }
    {
        (self.slots.len() as u64)
            .saturating_mul(ENTRY_CHARGE)
            .saturating_add(self.bytes.len() as u64)
    }
}
