//! A handle says where a block lies in a file, in at most 20 bytes:
//!
//! ```text
//! offset   varint64: where the block begins
//! size     varint64: how many bytes it has, without its trailer
//! ```
ghost use Rattle.std.specs.Prelude.{◌≡◌, ◌++◌, IfOk, OnOk};
ghost use Rattle.st_table.specs.Handle.{LiesInFile, footer_handle, handle_at, handle_bytes, lies, value_handle};

use crate::footer::FOOTER_BYTES;
use crate::stored::TRAILER_BYTES;
use st_base::{Bytes, TableFault};
use st_code::{push_varint, read_varint};
use std::alloc::{AllocError, Global};

/// Where a block lies in a file: it begins at the offset and has the size, in bytes, and its trailer follows.
#[derive(Clone, Copy)]
pub struct Handle {
    pub offset: u64,
    pub size: u64,
}

/// Appends a handle; where memory runs out, some of it may stand there.
pub(crate) fn put_handle(out: &mut Bytes, handle: Handle) -> Result<(), AllocError>
    ensures { OnOk result (out.new ≡ out.old ++ handle_bytes handle) }
{
    push_varint(out, handle.offset)?;
    push_varint(out, handle.size)
}

/// The bytes of a handle.
pub fn handle_bytes(alloc: Global, handle: Handle) -> Result<Bytes, AllocError>
    ensures { IfOk result (λ bytes. bytes ≡ handle_bytes handle) }
{
    let mut bytes = Bytes::new(alloc);
    put_handle(&mut bytes, handle)?;
    Ok(bytes)
}

// The handle at the offset and the offset behind it, or none where it doesn't parse.
#[tactic(auto, unfolding(crate::specs::Handle::handle_at))]
fn handle_at(bytes: &[u8], at: usize) -> Option<(Handle, usize)>
    ensures { result ≡ handle_at bytes.now at }
{
    let (offset, at) = read_varint(bytes, at).ok()?;
    let (size, at) = read_varint(bytes, at).ok()?;
    Some((Handle { offset, size }, at))
}

// Whether the handle's block and its trailer lie before the footer.
fn lies(bytes: &[u8], handle: Handle) -> bool
    ensures { result ≡ lies bytes.now handle }
{
    let room = bytes.len().saturating_sub(FOOTER_BYTES);
    match handle.offset.checked_add(handle.size) {
        Some(end) => room >= TRAILER_BYTES && end <= (room - TRAILER_BYTES) as u64,
        None => false,
    }
}

/// The handle of the footer at the offset, and the offset behind it.
pub(crate) fn footer_handle(bytes: &[u8], at: usize) -> Result<(Handle, usize), TableFault>
    ensures value { result ≡ footer_handle bytes.now at }
    ensures lies { IfOk result (λ found. LiesInFile bytes.now found.0) }
{
    match handle_at(bytes, at) {
        Some((handle, end)) if lies(bytes, handle) => Ok((handle, end)),
        _ => Err(TableFault::Handle(at as u64)),
    }
}

/// The handle that the value is exactly; the value begins at the offset in the file.
pub(crate) fn value_handle(bytes: &[u8], at: u64, value: &[u8]) -> Result<Handle, TableFault>
    ensures value { result ≡ value_handle bytes.now at value.now }
    ensures lies { IfOk result (LiesInFile bytes.now) }
{
    match handle_at(value, 0) {
        Some((handle, end)) if end == value.len() && lies(bytes, handle) => Ok(handle),
        _ => Err(TableFault::Handle(at)),
    }
}
