ghost use Rattle.std.specs.Prelude.{◌≡◌, ◌+◌, ◌<◌, ◌≤◌, ◌^◌, List, [], Err, length, nat_le, IfOk, OnOk, OnErr};
ghost use Rattle.st_base.specs.Rows.{FitsMark, entry_of, mark_of};
ghost use Rattle.st_base.specs.declared.entry.Entry.{Entry};
ghost use Rattle.st_block.specs.Written.{pair_added};
ghost use Rattle.st_table.specs.Footer.{greatest_size};
ghost use Rattle.st_table.specs.IsTable.{IsTable};
ghost use Rattle.table_writer.specs.Written.{MayBeTable, written_table};
ghost use Rattle.table_writer.specs.Writer.{FitsMore, HoldsEntries, entry_added, finished_table, finished_more, fits_more, with_closed, with_pair};

use crate::ending::ending;
use crate::fault::AddFault;
use crate::laws::written_table_opens;
use crate::stored_blocks::{push_block, table_with, whole_table};
use st_base::{Bytes, EntryRef, INTERNAL_KEY_BYTES, KEY_BYTES, VALUE_BYTES};
use st_block::{BlockWriter, internal_key_in, value_under};
use st_table::{Handle, TRAILER_BYTES, TableKind, greatest_size, handle_bytes};
use std::alloc::{AllocError, Global};
use std::marker::Model;
use std::mem;

/// A data block is closed after the entry with which its entries have so many bytes.
const BLOCK_BYTES: usize = 4_096;

/// There is a restart at every so many entries of a data block.
const RESTART_INTERVAL: u32 = 16;

/// What follows the index block has at most so many bytes.
const ENDING_BYTES: usize = 1_000;

/// An entry that is added makes its block longer by at most so many bytes beside its internal key and its value: three lengths
/// and a restart.
const BLOCK_ENTRY_BYTES: usize = 42;

/// An entry that is added makes a table longer by at most so many bytes, beside twice its internal key and once its value:
/// those of its own block and of the index, a handle, and the trailers of both blocks.
const ENTRY_BYTES: usize = 114;

/// A writer of one table. Contracts see what it has so far; `HoldsEntries` says which entries these are. That they stand in the
/// order of the table's kind isn't asked for, but a premise of the law that what was written opens again.
#[derive(Drop)]
pub struct TableWriter {
    kind: TableKind,
    count: u64,
    blocks: Bytes,
    block: BlockWriter,
    index: BlockWriter,
    /// Room for an internal key.
    room: Bytes,
}

impl Model for TableWriter {
    ghost use Rattle.table_writer.specs.Writer.{IsWriter, Writer};

    ghost Value = { Writer };

    ghost view = { λ writer. record { kind = writer.kind; count = writer.count; blocks = writer.blocks; block = writer.block; index = writer.index } };

    ghost invariant = { λ writer. IsWriter (record { kind = writer.kind; count = writer.count; blocks = writer.blocks; block = writer.block; index = writer.index }) };
}

impl TableWriter {
    /// A writer of a table of this kind, without entries.
    pub fn new(alloc: Global, kind: TableKind) -> Result<TableWriter, AllocError>
        ensures kind { IfOk result (λ writer. writer.kind ≡ kind) }
        ensures holds { IfOk result (λ writer. HoldsEntries writer []) }
    {
        let block = BlockWriter::new(alloc, RESTART_INTERVAL)?;
        let index = BlockWriter::new(alloc, 1)?;
        Ok(TableWriter {
            kind,
            count: 0,
            blocks: Bytes::new(alloc),
            block,
            index,
            room: Bytes::new(alloc),
        })
    }

    // A bound on how many bytes the finished table has with an entry of this internal key and value more.
    fn size_at_most(&self, internal: &[u8], value: &[u8]) -> usize
        requires key { length internal.now ≤ INTERNAL_KEY_BYTES }
        requires value { length value.now ≤ VALUE_BYTES }
        ensures { length (finished_more self.now internal.now value.now) ≤ result }
    {
        let blocks = self.blocks.len() + self.block.finished_size() + self.index.finished_size();
        blocks + 2 * internal.len() + value.len() + ENTRY_BYTES + ENDING_BYTES
    }

    // Whether the finished table with an entry of this internal key and value more is within the limit of its kind, by its
    // exact size.
    fn has_exact_room(
        &self,
        alloc: Global,
        internal: &[u8],
        value: &[u8],
    ) -> Result<bool, AllocError>
        requires key { length internal.now ≤ INTERNAL_KEY_BYTES }
        requires value { length value.now ≤ VALUE_BYTES }
        ensures { IfOk result (λ yes. yes ≡ fits_more self.now internal.now value.now) }
    {
        let limit = greatest_size(self.kind);
        let size = self.block.finished_size_with(internal, value);
        let handle = Handle {
            offset: self.blocks.len() as u64,
            size: size as u64,
        };
        let handle_bytes = handle_bytes(alloc, handle)?;
        let index_size = self
            .index
            .finished_size_with(internal, handle_bytes.as_slice());
        let index_handle = Handle {
            offset: (self.blocks.len() + size + TRAILER_BYTES) as u64,
            size: index_size as u64,
        };
        let before = self.blocks.len() + size + TRAILER_BYTES + index_size + TRAILER_BYTES;
        if before + ENDING_BYTES <= limit {
            return Ok(true);
        }
        let ending = ending(
            alloc,
            self.kind,
            self.count + 1,
            before as u64,
            index_handle,
        )?;
        Ok(before + ending.len() <= limit)
    }

    // Whether the finished table with an entry of this internal key and value more is within the limit of its kind. Its exact
    // size is looked at only where the limit is near.
    fn has_room(&self, alloc: Global, internal: &[u8], value: &[u8]) -> Result<bool, AllocError>
        requires key { length internal.now ≤ INTERNAL_KEY_BYTES }
        requires value { length value.now ≤ VALUE_BYTES }
        ensures { IfOk result (λ yes. yes ≡ fits_more self.now internal.now value.now) }
    {
        if self.size_at_most(internal, value) <= greatest_size(self.kind) {
            return Ok(true);
        }
        self.has_exact_room(alloc, internal, value)
    }

    // Appends an entry and closes its block.
    fn close_with(&mut self, alloc: Global, internal: &[u8], value: &[u8]) -> Result<(), AllocError>
        requires key { length internal.now ≤ INTERNAL_KEY_BYTES }
        requires value { length value.now ≤ VALUE_BYTES }
        requires room { FitsMore self.old internal.now value.now }
        ensures ok { OnOk result
            (self.new ≡ with_closed self.old (pair_added self.old.block internal.now value.now)) }
        ensures err { OnErr result (self.new ≡ self.old) }
    {
        let next = BlockWriter::new(alloc, RESTART_INTERVAL)?;
        let block = self.block.finish_with(alloc, internal, value)?;
        push_block(
            alloc,
            &mut self.blocks,
            &mut self.index,
            block.as_slice(),
            internal,
        )?;
        self.block = next;
        self.count += 1;
        Ok(())
    }

    // Whether an entry of this internal key and value closes its block. The exact size is looked at only where it may.
    fn closes_with(&self, internal: &[u8], value: &[u8]) -> bool
        requires key { length internal.now ≤ INTERNAL_KEY_BYTES }
        requires value { length value.now ≤ VALUE_BYTES }
        ensures { result ≡ nat_le BLOCK_BYTES (length (pair_added self.now.block internal.now value.now).entries) }
    {
        let at_most = self.block.finished_size() + internal.len() + value.len() + BLOCK_ENTRY_BYTES;
        at_most >= BLOCK_BYTES && self.block.size_with(internal, value) >= BLOCK_BYTES
    }

    // Appends an entry, and closes its block where it has grown large enough.
    fn put(&mut self, alloc: Global, internal: &[u8], value: &[u8]) -> Result<(), AllocError>
        requires key { length internal.now ≤ INTERNAL_KEY_BYTES }
        requires value { length value.now ≤ VALUE_BYTES }
        requires room { FitsMore self.old internal.now value.now }
        ensures ok { OnOk result (self.new ≡ with_pair self.old internal.now value.now) }
        ensures err { OnErr result (self.new ≡ self.old) }
    {
        if self.closes_with(internal, value) {
            return self.close_with(alloc, internal, value);
        }
        self.block.add(internal, value)?;
        self.count += 1;
        Ok(())
    }

    // Appends the entry of this internal key and value, or leaves the writer as it was.
    fn add_internal(&mut self, alloc: Global, internal: &[u8], value: &[u8]) -> Result<(), AddFault>
        requires key { length internal.now ≤ INTERNAL_KEY_BYTES }
        requires value { length value.now ≤ VALUE_BYTES }
        ensures ok { OnOk result (self.new ≡ with_pair self.old internal.now value.now) }
        ensures fits { OnOk result (FitsMore self.old internal.now value.now) }
        ensures too_large { result ≡ Err AddFault.TooLarge
            → greatest_size self.old.kind < length (finished_more self.old internal.now value.now) }
        ensures err { OnErr result (self.new ≡ self.old) }
    {
        if !self.has_room(alloc, internal, value)? {
            return Err(AddFault::TooLarge);
        }
        self.put(alloc, internal, value)?;
        Ok(())
    }

    /// Appends an entry; an error leaves the writer as it was. `TooLarge` comes exactly where the finished table
    /// would pass the limit of its kind, unless memory runs out before. The work is that of the entry, and of its block
    /// where that is closed.
    pub fn add(&mut self, alloc: Global, entry: EntryRef<'_>) -> Result<(), AddFault>
        requires key { length entry.key.now ≤ KEY_BYTES }
        requires mark { FitsMark (mark_of entry.mark) }
        requires number { entry.number < 2 ^ 56 }
        ensures ok { OnOk result (self.new ≡ entry_added self.old (entry_of entry.entry)) }
        ensures fits { OnOk result
            (length (finished_table (entry_added self.old (entry_of entry.entry))) ≤ greatest_size self.old.kind) }
        ensures too_large { result ≡ Err AddFault.TooLarge
            → greatest_size self.old.kind < length (finished_table (entry_added self.old (entry_of entry.entry))) }
        ensures err { OnErr result (self.new ≡ self.old) }
    {
        let room = mem::replace(&mut self.room, Bytes::new(alloc));
        let internal = internal_key_in(room, entry)?;
        let added = self.add_internal(alloc, internal.as_slice(), value_under(entry.mark));
        self.room = internal;
        added
    }

    // The table of what was added.
    fn finished(&self, alloc: Global) -> Result<Bytes, AllocError>
        ensures value { IfOk result (λ bytes. bytes ≡ finished_table self.now) }
        ensures fits { IfOk result (λ bytes. length bytes ≤ greatest_size self.now.kind) }
    {
        if self.block.is_empty() {
            let index = self.index.finish(alloc)?;
            let blocks = Bytes::from_slice(alloc, self.blocks.as_slice())?;
            let bytes = whole_table(alloc, self.kind, self.count, blocks, index.as_slice())?;
            return Ok(bytes);
        }
        let blocks = self.blocks.as_slice();
        let bytes = table_with(
            alloc,
            self.kind,
            self.count,
            blocks,
            &self.block,
            &self.index,
        )?;
        Ok(bytes)
    }

    /// The table of what was added. It is within the limit of its kind, and a table with these entries where they are in
    /// strict order and each may stand in a table of that kind.
    pub fn finish(&self, alloc: Global) -> Result<Bytes, AllocError>
        ensures value { IfOk result (λ bytes. bytes ≡ finished_table self.now) }
        ensures written { IfOk result (λ bytes. (entries : List Entry)
            → HoldsEntries self.now entries → bytes ≡ written_table self.now.kind entries) }
        ensures table { IfOk result (λ bytes. (entries : List Entry)
            → HoldsEntries self.now entries → MayBeTable self.now.kind entries → IsTable bytes self.now.kind entries) }
        ensures fits { IfOk result (λ bytes. length bytes ≤ greatest_size self.now.kind) }
    {
        written_table_opens();
        let bytes = self.finished(alloc)?;
        Ok(bytes)
    }
}
