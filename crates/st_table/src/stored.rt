//! A block as it is stored in a file, with a trailer of 5 bytes after it:
//!
//! ```text
//! block
//! compression type   1 byte: 0 is none
//! sum                fixed32: the masked CRC-32C of the block and the compression type
//! ```
ghost use Rattle.std.specs.Prelude.{◌≡◌, ◌≤◌, ◌++◌, Ok, IfOk, IfErr, OnErr, OnOk};
ghost use Rattle.st_block.specs.Written.{Appends};
ghost use Rattle.st_table.specs.Handle.{LiesInFile};
ghost use Rattle.st_table.specs.Steps.{Fails};
ghost use Rattle.st_table.specs.Stored.{block_at, stored};

use crate::fault::OpenTableFault;
use crate::handle::Handle;
use st_base::{Bytes, Scratch, TableFault};
use st_block::{Block, BlockKind};
use st_code::{Crc, crc_in_pieces, crc32c, fixed32_in, mask, push_fixed32};
use std::alloc::AllocError;
use std::sync::Arc;

/// The length of a block's trailer, in bytes.
pub const TRAILER_BYTES: usize = 5;

/// The compression type of a block that isn't compressed.
const NO_COMPRESSION: u8 = 0;

// Appends a block and its trailer; where memory runs out, some of it may stand there.
fn put_stored(out: &mut Bytes, contents: &[u8]) -> Result<(), AllocError>
    ensures ok { OnOk result (out.new ≡ out.old ++ stored contents.now) }
    ensures err { OnErr result (Appends out.old out.new) }
{
    crc_in_pieces();
    let mut sum = Crc::start();
    sum.update(contents);
    sum.update(&[NO_COMPRESSION]);
    out.extend_from_slice(contents)?;
    out.push(NO_COMPRESSION)?;
    push_fixed32(out, mask(sum.finish()))
}

/// Appends a block and its trailer; an error leaves the bytes as they were.
pub fn push_stored(out: &mut Bytes, contents: &[u8]) -> Result<(), AllocError>
    ensures ok { OnOk result (out.new ≡ out.old ++ stored contents.now) }
    ensures err { OnErr result (out.new ≡ out.old) }
{
    let before = out.len();
    match put_stored(out, contents) {
        Ok(()) => Ok(()),
        Err(error) => {
            out.truncate(before);
            Err(error)
        }
    }
}

/// The block of a handle that lies in the file, or its first fault: of its compression type, its sum, its contents.
#[tactic(auto, unfolding(crate::specs::Stored::block_at))]
pub(crate) fn block_at(
    bytes: &Arc<Bytes>,
    handle: Handle,
    kind: BlockKind,
    scratch: &mut Scratch,
) -> Result<Block, OpenTableFault>
    requires { LiesInFile bytes.now.value handle }
    ensures ok { IfOk result (λ block. block_at kind bytes.now.value handle ≡ Ok block) }
    ensures within { IfOk result (λ block. block.end ≤ handle.size) }
    ensures err { IfErr result (λ fault. Fails fault (block_at kind bytes.now.value handle)) }
{
    let text = bytes.as_slice();
    let from = handle.offset as usize;
    let size = handle.size as usize;
    let end = from + size;
    if text[end] != NO_COMPRESSION {
        return Err(TableFault::Compressed(handle.offset).into());
    }
    let stored = fixed32_in(text, end + 1);
    let found = mask(crc32c(&text[from..end + 1]));
    if stored != found {
        let at = handle.offset;
        return Err(TableFault::Sum { at, stored, found }.into());
    }
    let shared = Arc::clone(bytes)?;
    match Block::open(shared, from, size, kind, scratch) {
        Ok(block) => Ok(block),
        Err(fault) => Err(TableFault::Block(handle.offset, fault).into()),
    }
}
