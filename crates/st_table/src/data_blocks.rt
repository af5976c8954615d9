ghost use Rattle.std.specs.Prelude.{◌≡◌, ◌+◌, ◌<◌, ◌^◌, [], Ok, IfOk, IfErr, OnOk};
ghost use Rattle.std.specs.Ordering.{is_lt};
ghost use Rattle.st_base.specs.Rows.{AreRows};
ghost use Rattle.st_block.specs.InternalKey.{internal_cmp};
ghost use Rattle.st_table.specs.DataBlocks.{data_of, first_cell_key, last_cell_key, parts, with_block};
ghost use Rattle.st_table.specs.Steps.{Fails};

use crate::entries::push_entries;
use crate::entry_arena::EntryArena;
use crate::fault::OpenTableFault;
use crate::handle::value_handle;
use crate::kind::TableKind;
use crate::stored::block_at;
use st_base::{Bytes, Scratch, TableFault};
use st_block::{Block, BlockKind, internal_cmp};
use std::alloc::Global;
use std::sync::Arc;

/// An entry of the index, which names a data block.
#[derive(Clone, Copy)]
struct IndexEntry<'a> {
    key: &'a [u8],
    value: &'a [u8],
    /// Where the value begins in the file.
    at: u64,
    /// How many blocks stand before this one.
    block: u64,
    /// The index key before, if there is one.
    before: &'a [u8],
}

// Whether the index key before is before the block's first key.
fn is_past(before: &[u8], block: &Block, scratch: &mut Scratch) -> bool
    ensures { result ≡ is_lt (internal_cmp before.now (first_cell_key block.now.cells)) }
{
    let start = block.start();
    match block.read(start, scratch) {
        Some(_entry) => internal_cmp(before, scratch.as_slice()).is_lt(),
        None => internal_cmp(before, &[]).is_lt(),
    }
}

// Whether the index key parts its block from the next, and the one before it from that before. The block's last key
// stands in the scratch.
fn parts(item: IndexEntry, block: &Block, scratch: &mut Scratch) -> bool
    requires { scratch.old ≡ last_cell_key [] block.now.cells }
    ensures { result ≡ parts item.entry.block item.entry.before.now block.now.cells item.entry.key.now }
{
    let is_behind = internal_cmp(scratch.as_slice(), item.key).is_le();
    is_behind && (item.block == 0 || is_past(item.before, block, scratch))
}

// Appends the entries of the data block that the index entry names to those before, or finds the first fault.
#[tactic(auto, unfolding(crate::specs::DataBlocks::with_block))]
fn push_block(
    bytes: &Arc<Bytes>,
    kind: TableKind,
    item: IndexEntry,
    entries: &mut EntryArena,
    scratch: &mut Scratch,
) -> Result<(), OpenTableFault>
    ensures ok { OnOk result
        (with_block kind bytes.now.value item.entry.at item.entry.block item.entry.before.now item.entry.key.now
        item.entry.value.now entries.old ≡ Ok entries.new) }
    ensures rows { AreRows entries.old → OnOk result (AreRows entries.new) }
    ensures err { IfErr result
        (λ fault. Fails fault
        (with_block kind bytes.now.value item.entry.at item.entry.block item.entry.before.now item.entry.key.now
        item.entry.value.now entries.old)) }
{
    let handle = value_handle(bytes.as_slice(), item.at, item.value)?;
    let block = block_at(bytes, handle, BlockKind::Data, scratch)?;
    scratch.keep_and_add(0, &[]);
    push_entries(kind, entries, &block, scratch)?;
    if parts(item, &block, scratch) {
        Ok(())
    } else {
        Err(TableFault::Index(item.block).into())
    }
}

/// The entries of the data blocks that the index block names, in its order, or their first fault. The index block begins
/// at the offset in the file.
pub(crate) fn data_of(
    alloc: Global,
    bytes: &Arc<Bytes>,
    kind: TableKind,
    at: u64,
    index: &Block,
) -> Result<EntryArena, OpenTableFault>
    requires { at + index.now.end < 2 ^ 64 }
    ensures ok { IfOk result (λ entries. data_of kind bytes.now.value at index.now ≡ Ok entries) }
    ensures rows { IfOk result AreRows }
    ensures err { IfErr result (λ fault. Fails fault (data_of kind bytes.now.value at index.now)) }
{
    let mut scratch = Scratch::new(alloc)?;
    let mut before = Scratch::new(alloc)?;
    let mut data_scratch = Scratch::new(alloc)?;
    let mut entries = EntryArena::new(alloc);
    let mut offset = index.start();
    let mut block = 0;
    while let Some(entry) = index.read(offset, &mut scratch) {
        let item = IndexEntry {
            key: scratch.as_slice(),
            value: entry.value,
            at: at + (entry.next - entry.value.len()) as u64,
            block,
            before: before.as_slice(),
        };
        push_block(bytes, kind, item, &mut entries, &mut data_scratch)?;
        before.keep_and_add(0, scratch.as_slice());
        block += 1;
        offset = entry.next;
    }
    Ok(entries)
}
