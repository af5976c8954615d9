ghost use Rattle.std.specs.Prelude.{◌≡◌, ℕ, ◌++◌, List, Err, OnOk, OnErr, Option};
ghost use Rattle.st_base.specs.Rows.{entry_of};
ghost use Rattle.build_text.specs.Build.{GivesEntry, build_line, del_entry, entry_of_line, entry_of_put, put_entry};
ghost use Rattle.build_text.specs.Words.{Extends, GivesBytes};

use crate::fault::{BuildLineFault, WordFault};
use crate::spelling::{push_word, read_word};
use crate::words::Words;
use st_base::{Bytes, EntryRef, KEY_BYTES, MarkRef, VALUE_BYTES};
use std::alloc::{AllocError, Global};

/// The entry of a line, where it lies in memory: its sequence number is 0.
#[derive(Clone, Copy)]
pub struct LineEntry<'a> {
    pub key: &'a [u8],
    pub mark: MarkRef<'a>,
}

/// Room for the key and the value of a line that have to be spelled, which one line after the other takes.
#[derive(Drop)]
pub(crate) struct LineScratch {
    key: Bytes,
    value: Bytes,
}

impl LineScratch {
    /// Room that takes no memory yet.
    pub(crate) fn new(alloc: Global) -> LineScratch {
        LineScratch {
            key: Bytes::new(alloc),
            value: Bytes::new(alloc),
        }
    }
}

// The first fault of a line `put K V` whose key has this one: it is a line of that kind only if the value is a word.
fn put_fault(key: WordFault, value: Result<&[u8], WordFault>) -> BuildLineFault
    ensures { (key_read value_read : Option (List ℕ)) → GivesBytes (Err key) KEY_BYTES key_read
        → GivesBytes value.entry VALUE_BYTES value_read → GivesEntry (Err result) (entry_of_put key_read value_read) }
{
    match key {
        WordFault::TooLong => match value {
            Ok(_value) => BuildLineFault::TooLarge,
            Err(fault) => BuildLineFault::from(fault),
        },
        WordFault::NotAWord => BuildLineFault::Line,
        WordFault::OutOfMemory => BuildLineFault::OutOfMemory,
    }
}

// The key with its value as a mark, or the first fault of the two words.
fn entry_of_put<'a>(
    key: Result<&'a [u8], WordFault>,
    value: Result<&'a [u8], WordFault>,
) -> Result<LineEntry<'a>, BuildLineFault>
    ensures { (key_read value_read : Option (List ℕ)) → GivesBytes key.entry KEY_BYTES key_read
        → GivesBytes value.entry VALUE_BYTES value_read → GivesEntry result (entry_of_put key_read value_read) }
{
    match key {
        Ok(key) => match value {
            Ok(value) => Ok(LineEntry {
                key,
                mark: MarkRef::Put(value),
            }),
            Err(fault) => Err(BuildLineFault::from(fault)),
        },
        Err(fault) => Err(put_fault(fault, value)),
    }
}

// `put K V`
#[tactic(auto, unfolding(crate::specs::Build::put_entry))]
fn read_put<'a>(
    arguments: Words<'a>,
    scratch: &'a mut LineScratch,
) -> Result<LineEntry<'a>, BuildLineFault>
    ensures { GivesEntry result (put_entry arguments.entry) }
{
    let (key, value) = arguments.two().ok_or(BuildLineFault::Line)?;
    entry_of_put(
        read_word(key, KEY_BYTES, &mut scratch.key),
        read_word(value, VALUE_BYTES, &mut scratch.value),
    )
}

// `del K`
#[tactic(auto, unfolding(crate::specs::Build::del_entry))]
fn read_del<'a>(
    arguments: Words<'a>,
    scratch: &'a mut LineScratch,
) -> Result<LineEntry<'a>, BuildLineFault>
    ensures { GivesEntry result (del_entry arguments.entry) }
{
    let key = arguments.one().ok_or(BuildLineFault::Line)?;
    match read_word(key, KEY_BYTES, &mut scratch.key) {
        Ok(key) => Ok(LineEntry {
            key,
            mark: MarkRef::Gone,
        }),
        Err(fault) => Err(BuildLineFault::from(fault)),
    }
}

/// Reads a line of a build text, without its line feed: `put K V` gives the key and its value, `del K` the key and a
/// tombstone; words are parted by one space. They lie in the line, or in the scratch where they have to be spelled.
///
/// `Line` comes exactly where it is neither, `TooLarge` exactly where it is one whose key or value passes its limit;
/// `OutOfMemory` may come for any line.
pub(crate) fn read_build_line<'a>(
    line: &'a [u8],
    scratch: &'a mut LineScratch,
) -> Result<LineEntry<'a>, BuildLineFault>
    ensures { GivesEntry result (entry_of_line line.now) }
{
    let mut words = Words::new(line);
    let name = words.next().ok_or(BuildLineFault::Line)?;
    if name == b"put".as_slice() {
        return read_put(words, scratch);
    }
    if name == b"del".as_slice() {
        return read_del(words, scratch);
    }
    Err(BuildLineFault::Line)
}

/// Appends the line of an entry of a build text, line feed included: `put K V`, or `del K` for a tombstone. The
/// sequence number isn't shown. An error leaves what was there, and maybe a part of the line after it.
pub fn push_build_line(out: &mut Bytes, entry: EntryRef<'_>) -> Result<(), AllocError>
    ensures ok { OnOk result (out.new ≡ out.old ++ build_line (entry_of entry.entry)) }
    ensures err { OnErr result (Extends out.old out.new) }
{
    match entry.mark {
        MarkRef::Put(value) => {
            out.extend_from_slice(b"put ")?;
            push_word(out, entry.key)?;
            out.push(b' ')?;
            push_word(out, value)?;
        }
        MarkRef::Gone => {
            out.extend_from_slice(b"del ")?;
            push_word(out, entry.key)?;
        }
    }
    out.push(b'\n')
}
