//! The footer is the last 53 bytes of a table:
//!
//! ```text
//! checksum type      1 byte: 1 is CRC-32C
//! metaindex handle   varint64 offset, varint64 size
//! index handle       varint64 offset, varint64 size
//! padding            up to the 41st byte; zeros are written, and what is there isn't looked at
//! version            fixed32: 2
//! magic number       fixed64: 0x88e241b785f4cff7
//! ```
ghost use Rattle.std.specs.Prelude.{◌≡◌, ◌≤◌, ◌++◌, IfOk, OnOk, length};
ghost use Rattle.st_table.specs.Footer.{footer_bytes, footer_of, handles_of, padded};
ghost use Rattle.st_table.specs.Handle.{LiesInFile};

use crate::handle::{Handle, footer_handle, put_handle};
use crate::kind::{TableKind, greatest_size};
use st_base::{Bytes, TableFault};
use st_code::{fixed32_in, fixed64_in, push_fixed32, push_fixed64};
use std::alloc::{AllocError, Global};

/// The length of a footer, in bytes.
pub(crate) const FOOTER_BYTES: usize = 53;

/// How many bytes of a footer stand before the version.
const PADDED_BYTES: usize = 41;

/// The checksum type of CRC-32C.
const CHECKSUM_TYPE: u8 = 1;

/// The version of the format of tables.
const FORMAT_VERSION: u32 = 2;

/// The magic number of a block-based table.
const MAGIC: u64 = 0x88e2_41b7_85f4_cff7;

/// What a footer points to.
#[derive(Clone, Copy)]
pub(crate) struct Footer {
    pub(crate) metaindex: Handle,
    pub(crate) index: Handle,
}

// Appends zero bytes, up to the version.
fn pad(out: &mut Bytes) -> Result<(), AllocError>
    ensures { OnOk result (out.new ≡ padded out.old) }
{
    let missing = PADDED_BYTES.saturating_sub(out.len());
    for _done in 0..missing {
        out.push(0)?;
    }
    Ok(())
}

/// Appends the footer; where memory runs out, some of it may stand there.
pub fn put_footer(
    alloc: Global,
    out: &mut Bytes,
    metaindex: Handle,
    index: Handle,
) -> Result<(), AllocError>
    ensures { OnOk result (out.new ≡ out.old ++ footer_bytes metaindex index) }
{
    let mut footer = Bytes::new(alloc);
    footer.push(CHECKSUM_TYPE)?;
    put_handle(&mut footer, metaindex)?;
    put_handle(&mut footer, index)?;
    pad(&mut footer)?;
    push_fixed32(&mut footer, FORMAT_VERSION)?;
    push_fixed64(&mut footer, MAGIC)?;
    out.extend_from_slice(footer.as_slice())
}

// The handles of the metaindex and the index, after the checksum type.
#[tactic(auto, unfolding(crate::specs::Footer::handles_of))]
fn handles_of(bytes: &[u8]) -> Result<Footer, TableFault>
    requires { FOOTER_BYTES ≤ length bytes.now }
    ensures value { result ≡ handles_of bytes.now }
    ensures metaindex { IfOk result (λ footer. LiesInFile bytes.now footer.metaindex) }
    ensures index { IfOk result (λ footer. LiesInFile bytes.now footer.index) }
{
    let (metaindex, at) = footer_handle(bytes, bytes.len() - 52)?;
    let (index, _end) = footer_handle(bytes, at)?;
    Ok(Footer { metaindex, index })
}

/// The footer of a file of this kind, or its first fault.
#[tactic(auto, unfolding(crate::specs::Footer::footer_of))]
pub(crate) fn footer_of(bytes: &[u8], kind: TableKind) -> Result<Footer, TableFault>
    ensures value { result ≡ footer_of kind bytes.now }
    ensures metaindex { IfOk result (λ footer. LiesInFile bytes.now footer.metaindex) }
    ensures index { IfOk result (λ footer. LiesInFile bytes.now footer.index) }
{
    let length = bytes.len();
    if length > greatest_size(kind) {
        return Err(TableFault::TooLarge);
    }
    if length < FOOTER_BYTES {
        return Err(TableFault::Short);
    }
    if fixed64_in(bytes, length - 8) != MAGIC {
        return Err(TableFault::Magic);
    }
    let version = fixed32_in(bytes, length - 12);
    if version != FORMAT_VERSION {
        return Err(TableFault::Version(version));
    }
    let checksum = bytes[length - FOOTER_BYTES];
    if checksum != CHECKSUM_TYPE {
        return Err(TableFault::Checksum(checksum));
    }
    handles_of(bytes)
}
