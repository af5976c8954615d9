ghost use Rattle.std.specs.Prelude.{◌≡◌, ◌<◌, List, [], Bool, true, length, IfOk, IsTrue};
ghost use Rattle.std.specs.List.{AllByRecursion as Each};
ghost use Rattle.st_base.specs.Rows.{AreRows, entry_of, last_key, mark_of};
ghost use Rattle.st_base.specs.declared.entry.Entry.{Entry};
ghost use Rattle.build_text.specs.Build.{GivesEntries, GivesMore, IsBuildEntry, entry_in_line, build_of, build_text, entries_from, is_above};
ghost use Rattle.build_text.specs.Build.{is_within, with_build_line, with_line_entry};
ghost use Rattle.build_text.specs.Words.{text_parts};

use crate::fault::{BuildFault, BuildLineFault};
use crate::line::{LineEntry, LineScratch, push_build_line, read_build_line};
use crate::words::split_once;
use st_base::{Bytes, Entries, Entry, EntryRef, Key, MakeFault, Mark, MarkRef, Value};
use std::alloc::{AllocError, Global};
use std::cmp::Ordering;

/// What takes the entries of a build text, one after the other: a list of them, or a table's writer.
pub trait EntryWriter {
    /// The entries that it was given, in order.
    ghost entries: { Self → List Entry };

    /// Whether entries fit together: the limit of what they are written to.
    ghost fits: { List Entry → Bool };

    /// Takes the entry of the line of this number at the end. `NotRising` comes exactly where its key isn't greater than that
    /// of the last entry, and `TooLarge` exactly where it is, and the entries don't fit with this one; `OutOfMemory` may come
    /// for any. Nothing is said of what it holds after an error.
    fn write(&mut self, alloc: Global, line: u32, entry: LineEntry<'_>) -> Result<(), BuildFault>
        requires { IsTrue (is_within (entry_in_line entry)) }
        ensures { GivesMore result (entries self.new)
            (with_line_entry fits (entries self.old) line (entry_in_line entry.entry)) };
}

// Gives the entry of the line of this number to the writer.
fn write_line<W: EntryWriter>(
    alloc: Global,
    writer: &mut W,
    number: u32,
    line: &[u8],
    scratch: &mut LineScratch,
) -> Result<(), BuildFault>
    ensures { GivesMore result (W.entries writer.new) (with_build_line W.fits (W.entries writer.old) number line.now) }
{
    match read_build_line(line, scratch) {
        Ok(entry) => writer.write(alloc, number, entry),
        Err(BuildLineFault::Line) => Err(BuildFault::Line { line: number }),
        Err(BuildLineFault::TooLarge) => Err(BuildFault::TooLarge { line: number }),
        Err(BuildLineFault::OutOfMemory) => Err(BuildFault::OutOfMemory),
    }
}

/// Reads a build text into the writer: the entries of its lines, in order. Each line is `put K V` or `del K` and ends with a
/// line feed, the last too; words are parted by one space, and keys rise.
///
/// The fault is the first one, and on one line the first of `Line`, `TooLarge` of the key or the value, and what the writer
/// answers. A text has fewer than 4,294,967,295 bytes, so that its lines can be numbered. Where each word stands for itself, it
/// takes no memory but what the writer does.
pub fn write_build<W: EntryWriter>(
    alloc: Global,
    text: &[u8],
    writer: &mut W,
) -> Result<(), BuildFault>
    requires { length text.now < 4294967295 }
    ensures { GivesMore result (W.entries writer.new)
        (entries_from W.fits (W.entries writer.old) 1 (text_parts text.now)) }
{
    let mut scratch = LineScratch::new(alloc);
    let mut rest = text;
    let mut number: u32 = 0;
    while !rest.is_empty() {
        number += 1;
        let Some((line, after)) = split_once(rest, b'\n') else {
            return Err(BuildFault::Line { line: number });
        };
        match write_line(alloc, writer, number, line, &mut scratch) {
            Ok(()) => rest = after,
            Err(fault) => return Err(fault),
        }
    }
    Ok(())
}

// ---- a list of entries

// The mark with a value of its own.
fn owned_mark(alloc: Global, mark: MarkRef<'_>) -> Result<Mark, MakeFault>
    ensures { IfOk result (λ own. own ≡ mark_of mark.entry) }
{
    match mark {
        MarkRef::Put(value) => Ok(Mark::Put(Value::new(alloc, value)?)),
        MarkRef::Gone => Ok(Mark::Gone),
    }
}

// The entry with a key and a value of its own.
fn owned_entry(alloc: Global, entry: LineEntry<'_>) -> Result<Entry, MakeFault>
    ensures { IfOk result (λ own. own ≡ entry_in_line entry.entry) }
{
    Ok(Entry {
        key: Key::new(alloc, entry.key)?,
        number: 0,
        mark: owned_mark(alloc, entry.mark)?,
    })
}

// Whether the key is greater than that of the last entry, if there is one.
fn is_above_last(entries: &Entries, key: &[u8]) -> bool
    ensures { result ≡ is_above (last_key entries.now) key.now }
{
    match entries.as_slice().last() {
        None => true,
        Some(last) => last.key.as_bytes().cmp(key) == Ordering::Less,
    }
}

/// A list takes as many entries as there is memory for.
impl EntryWriter for Entries {
    ghost entries = { λ entries. entries };

    ghost fits = { λ _. true };

    fn write(&mut self, alloc: Global, line: u32, entry: LineEntry<'_>) -> Result<(), BuildFault> {
        if !is_above_last(self, entry.key) {
            return Err(BuildFault::NotRising { line });
        }
        match owned_entry(alloc, entry) {
            Ok(entry) => Ok(self.push(entry)?),
            // a key and a mark within their limits are refused for memory alone
            Err(_fault) => Err(BuildFault::OutOfMemory),
        }
    }
}

/// Reads a build text: the entries of its lines, in order, each with the sequence number 0. Each line is `put K V` or
/// `del K` and ends with a line feed, the last too; words are parted by one space, and keys rise. The fault is the first
/// one, and on one line the first of `Line`, `TooLarge` and `NotRising`; `NoEntry` comes exactly for the empty text,
/// `OutOfMemory` for any. A text has fewer than 4,294,967,295 bytes, so that its lines can be numbered.
pub fn read_build(alloc: Global, text: &[u8]) -> Result<Entries, BuildFault>
    requires { length text.now < 4294967295 }
    ensures reading { GivesEntries result (build_of (λ _. true) text.now) }
    ensures rows { IfOk result AreRows }
    ensures entries { IfOk result (Each IsBuildEntry) }
{
    let mut entries = Entries::new(alloc);
    if let Err(fault) = write_build(alloc, text, &mut entries) {
        return Err(fault);
    }
    if entries.is_empty() {
        return Err(BuildFault::NoEntry);
    }
    Ok(entries)
}

// ---- printed

// The mark where it lies in memory.
fn mark_ref(mark: &Mark) -> MarkRef<'_>
    ensures { mark_of result ≡ mark.now }
{
    match mark {
        Mark::Put(value) => MarkRef::Put(value.as_bytes()),
        Mark::Gone => MarkRef::Gone,
    }
}

// The entry where it lies in memory.
fn entry_ref(entry: &Entry) -> EntryRef<'_>
    ensures { entry_of result ≡ entry.now }
{
    EntryRef {
        key: entry.key.as_bytes(),
        number: entry.number,
        mark: mark_ref(&entry.mark),
    }
}

/// The build text of the entries: a line for each, in order. It is read back as these entries where there are some, they
/// are rows, and each has the sequence number 0.
pub fn print_build(alloc: Global, entries: &Entries) -> Result<Bytes, AllocError>
    ensures { IfOk result (λ text. text ≡ build_text entries.now) }
{
    let mut text = Bytes::new(alloc);
    for entry in entries.as_slice() {
        push_build_line(&mut text, entry_ref(entry))?;
    }
    Ok(text)
}
