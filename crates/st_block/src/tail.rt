//! The tail of a block, behind its entries:
//!
//! ```text
//! restart offset ..   each a fixed32: the offset of an entry that shares nothing; the first is 0, and they rise
//! count               fixed32: how many there are
//! ```
ghost use Rattle.std.specs.Prelude.{◌≡◌, ℕ, ◌+◌, ◌*◌, ◌<◌, ◌≤◌, ◌^◌, List, ◌++◌, length, IfNone, IfSome, OnOk, Some, None};
ghost use Rattle.std.specs.List.{flat_map};
ghost use Rattle.st_code.specs.Fixed.{fixed32};
ghost use Rattle.st_block.specs.Block.{are_restarts, offsets_at, tail_of};
ghost use Rattle.st_block.specs.Written.{or_zero, with_tail};

use st_base::Bytes;
use st_code::{fixed32_in, push_fixed32};
use std::alloc::AllocError;

/// Where the entries of a block end, and how many restart offsets follow them.
#[derive(Clone, Copy)]
pub(crate) struct Tail {
    pub(crate) end: usize,
    pub(crate) count: usize,
}

// Whether the offsets at the offset begin with 0 and rise.
fn are_restarts(text: &[u8], at: usize, count: usize) -> bool
    requires { at + 4 * count ≤ length text.now }
    ensures { result ≡ are_restarts (offsets_at text.now at count) }
{
    if count == 0 {
        return false;
    }
    let mut last = fixed32_in(text, at);
    if last != 0 {
        return false;
    }
    for index in 1..count {
        let offset = fixed32_in(text, at + 4 * index);
        if offset <= last {
            return false;
        }
        last = offset;
    }
    true
}

/// The tail of a block, or none where it is too short, or the restarts don't begin with 0 or don't rise.
#[tactic(auto, unfolding(crate::specs::Block::tail_of))]
pub(crate) fn tail_of(text: &[u8]) -> Option<Tail>
    ensures found { IfSome result
        (λ tail. (tail_of text.now
        ≡ Some (record { end = tail.end; restarts = offsets_at text.now tail.end tail.count }))
        × (tail.end + 4 * tail.count + 4 ≡ length text.now)) }
    ensures none { IfNone result (tail_of text.now ≡ None) }
{
    if text.len() < 4 {
        return None;
    }
    let count = fixed32_in(text, text.len() - 4) as usize;
    let behind = 4 * count + 4;
    if text.len() < behind {
        return None;
    }
    let end = text.len() - behind;
    if !are_restarts(text, end, count) {
        return None;
    }
    Some(Tail { end, count })
}

// Appends each offset, in four bytes.
fn push_offsets(out: &mut Bytes, offsets: &[u32]) -> Result<(), AllocError>
    ensures { OnOk result (out.new ≡ out.old ++ flat_map fixed32 offsets.now) }
{
    for offset in offsets {
        push_fixed32(out, *offset)?;
    }
    Ok(())
}

// Appends the restart offsets and their count; a block without entries has the one restart 0.
pub(crate) fn put_tail(out: &mut Bytes, restarts: &[u32]) -> Result<(), AllocError>
    requires { length restarts.now < 2 ^ 32 }
    ensures { OnOk result (out.new ≡ with_tail out.old (or_zero restarts.now)) }
{
    if restarts.is_empty() {
        push_offsets(out, &[0])?;
        return push_fixed32(out, 1);
    }
    push_offsets(out, restarts)?;
    push_fixed32(out, restarts.len() as u32)
}

// How many bytes so many restart offsets and their count have.
pub(crate) fn tail_size(restarts: usize) -> usize
    requires { restarts ≤ 2 ^ 33 }
    ensures size { (entries offsets : List ℕ) → length offsets ≡ restarts
        → length entries + result ≡ length (with_tail entries (or_zero offsets)) }
    ensures within { result ≤ 2 ^ 36 }
{
    4 * restarts.max(1) + 4
}
