ghost use Rattle.std.specs.Prelude.{◌≡◌, ◌+◌, ◌<◌, ◌≤◌, ◌^◌, ◌++◌, length, IfOk, OnErr, OnOk};
ghost use Rattle.st_block.specs.Written.{finished_block};
ghost use Rattle.st_table.specs.Footer.{greatest_size};
ghost use Rattle.st_table.specs.Handle.{handle_bytes};
ghost use Rattle.st_table.specs.Stored.{stored};
ghost use Rattle.table_writer.specs.Written.{table_bytes};
ghost use Rattle.table_writer.specs.Writer.{finished_with, handle_behind, indexed_behind};

use crate::ending::ending;
use st_base::{Bytes, INTERNAL_KEY_BYTES};
use st_block::BlockWriter;
use st_table::{Handle, TableKind, handle_bytes, push_stored};
use std::alloc::{AllocError, Global};

// The handle of a block that is stored behind these bytes.
fn handle_behind(blocks: &[u8], block: &[u8]) -> Handle
    ensures { result ≡ handle_behind blocks.now block.now }
{
    Handle {
        offset: blocks.len() as u64,
        size: block.len() as u64,
    }
}

// The bytes of this handle, of which there are 20 at most.
fn short_handle_bytes(alloc: Global, handle: Handle) -> Result<Bytes, AllocError>
    ensures value { IfOk result (λ bytes. bytes ≡ handle_bytes handle) }
    ensures short { IfOk result (λ bytes. length bytes ≤ 20) }
{
    let bytes = handle_bytes(alloc, handle)?;
    Ok(bytes)
}

/// Stores a data block behind the others, and puts its last key and its handle into the index; an error leaves both as they
/// were. The index block is to have fewer than 2^32 bytes then.
pub(crate) fn push_block(
    alloc: Global,
    blocks: &mut Bytes,
    index: &mut BlockWriter,
    block: &[u8],
    last_key: &[u8],
) -> Result<(), AllocError>
    requires key { length last_key.now ≤ INTERNAL_KEY_BYTES }
    requires room { length (finished_block (indexed_behind index.old last_key.now blocks.old block.now)) < 2 ^ 32 }
    ensures stored { OnOk result (blocks.new ≡ blocks.old ++ stored block.now) }
    ensures indexed { OnOk result (index.new ≡ indexed_behind index.old last_key.now blocks.old block.now) }
    ensures err { OnErr result (blocks.new ≡ blocks.old) }
    ensures index_err { OnErr result (index.new ≡ index.old) }
{
    let before = blocks.len();
    let handle = short_handle_bytes(alloc, handle_behind(blocks.as_slice(), block))?;
    push_stored(blocks, block)?;
    if let Err(error) = index.add(last_key, handle.as_slice()) {
        blocks.truncate(before);
        return Err(error);
    }
    Ok(())
}

/// The table of these data blocks, which are stored one after the other, and this index block.
pub(crate) fn whole_table(
    alloc: Global,
    kind: TableKind,
    count: u64,
    blocks: Bytes,
    index: &[u8],
) -> Result<Bytes, AllocError>
    requires { length blocks + length index.now < 2 ^ 60 }
    ensures { IfOk result (λ bytes. bytes ≡ table_bytes kind count blocks index.now) }
{
    let handle = handle_behind(blocks.as_slice(), index);
    let mut out = blocks;
    push_stored(&mut out, index)?;
    let ending = ending(alloc, kind, count, out.len() as u64, handle)?;
    out.extend_from_slice(ending.as_slice())?;
    Ok(out)
}

/// The table of these data blocks, which are stored one after the other, and of the open one, which has entries.
pub(crate) fn table_with(
    alloc: Global,
    kind: TableKind,
    count: u64,
    blocks: &[u8],
    block: &BlockWriter,
    index: &BlockWriter,
) -> Result<Bytes, AllocError>
    requires { length (finished_with kind count blocks.now block.now index.now) ≤ greatest_size kind }
    ensures { IfOk result (λ bytes. bytes ≡ finished_with kind count blocks.now block.now index.now) }
{
    let contents = block.finish(alloc)?;
    let handle = short_handle_bytes(alloc, handle_behind(blocks, contents.as_slice()))?;
    let index_block = index.finish_with(alloc, block.last_key(), handle.as_slice())?;
    let mut stored = Bytes::from_slice(alloc, blocks)?;
    push_stored(&mut stored, contents.as_slice())?;
    let bytes = whole_table(alloc, kind, count, stored, index_block.as_slice())?;
    Ok(bytes)
}
