//! An entry of a block. Its key begins with bytes of the key before:
//!
//! ```text
//! shared     varint32: how many bytes of the key before its key begins with
//! unshared   varint32: how many bytes its key has behind these
//! length     varint32: how many bytes its value has
//! key        the unshared bytes
//! value
//! ```
ghost use Rattle.std.specs.Prelude.{◌≡◌, ◌+◌, ◌<◌, ◌≤◌, [], ◌∷◌, ◌++◌, length, Some, None, IfNone, IfSome, OnErr, OnOk, option_map};
ghost use Rattle.st_block.specs.Block.{cell_at, fits, head_at, laid};
ghost use Rattle.st_block.specs.Entry.{AreLengths, IsFitting, IsHead, IsRead, cell_of, head_of};
ghost use Rattle.st_code.specs.Varint.{varint};
ghost use Rattle.st_block.specs.Written.{Appends, entry_bytes};

use st_base::{Bytes, INTERNAL_KEY_BYTES, Scratch, VALUE_BYTES};
use st_code::{push_varint, read_varint32, varint_len};
use std::alloc::AllocError;

/// The lengths that an entry begins with, in bytes.
#[derive(Clone, Copy)]
pub(crate) struct Head {
    /// How many bytes it shares with the key before.
    pub(crate) shared: usize,
    /// How many bytes of its key stand in it.
    pub(crate) unshared: usize,
    /// How many bytes its value has.
    pub(crate) value: usize,
    /// Where its key's bytes begin.
    pub(crate) behind: usize,
}

// The head of the entry at the offset, or none where it doesn't parse.
#[tactic(auto, unfolding(crate::specs::Block::head_at))]
pub(crate) fn head_at(area: &[u8], at: usize) -> Option<Head>
    ensures value { option_map head_of result ≡ head_at area.now at }
    ensures within { IfSome result (IsHead at (length area.now)) }
{
    let (shared, at) = read_varint32(area, at).ok()?;
    let (unshared, at) = read_varint32(area, at).ok()?;
    let (value, at) = read_varint32(area, at).ok()?;
    Some(Head {
        shared: shared as usize,
        unshared: unshared as usize,
        value: value as usize,
        behind: at,
    })
}

// Whether an entry with this head fits after a key of so many bytes, and among the entries.
pub(crate) fn fits(area: &[u8], before: &[u8], head: Head) -> bool
    requires lengths { AreLengths head }
    requires within { head.behind ≤ length area.now }
    ensures { result ≡ fits area.now before.now (head_of head) }
{
    head.shared <= before.len()
        && head.shared + head.unshared <= INTERNAL_KEY_BYTES
        && head.unshared as u64 + head.value as u64 <= (area.len() - head.behind) as u64
}

/// An entry that was read: its key stands in the scratch.
#[derive(Clone, Copy)]
pub(crate) struct ReadCell {
    /// How many bytes it shares with the key before.
    pub(crate) shared: usize,
    /// Where its value begins.
    pub(crate) value: usize,
    /// The offset after it.
    pub(crate) next: usize,
}

// The head of the entry at the offset, after a key, or none where no entry stands there.
#[tactic(auto, unfolding(crate::specs::Block::cell_at))]
pub(crate) fn head_behind(area: &[u8], before: &[u8], at: usize) -> Option<Head>
    ensures found { IfSome result
        (λ head. (cell_at area.now before.now at ≡ Some (laid area.now before.now at (head_of head)))
        × IsFitting area.now before.now at head) }
    ensures none { IfNone result (cell_at area.now before.now at ≡ None) }
{
    let head = head_at(area, at)?;
    if fits(area, before, head) {
        Some(head)
    } else {
        None
    }
}

// The entry at the offset, after the key in the scratch; its key is put into the scratch. None, and the scratch is left
// as it was, where no entry stands there.
pub(crate) fn read_at(area: &[u8], at: usize, scratch: &mut Scratch) -> Option<ReadCell>
    ensures found { IfSome result
        (λ read. (cell_at area.now scratch.old at ≡ Some (cell_of area.now at scratch.new read, read.next))
        × IsRead (length area.now) at read) }
    ensures none { IfNone result ((cell_at area.now scratch.old at ≡ None) × (scratch.new ≡ scratch.old)) }
{
    let head = head_behind(area, scratch.as_slice(), at)?;
    let value = head.behind + head.unshared;
    scratch.keep_and_add(head.shared, &area[head.behind..value]);
    Some(ReadCell {
        shared: head.shared,
        value,
        next: value + head.value,
    })
}

// Appends three numbers that have one byte each.
fn put_short_lengths(
    out: &mut Bytes,
    shared: usize,
    unshared: usize,
    value: usize,
) -> Result<(), AllocError>
    requires shared { shared < 128 }
    requires unshared { unshared < 128 }
    requires value { value < 128 }
    ensures ok { OnOk result (out.new ≡ out.old ++ (shared ∷ unshared ∷ value ∷ [])) }
    ensures err { OnErr result (out.new ≡ out.old) }
{
    out.extend_from_slice(&[shared as u8, unshared as u8, value as u8])
}

// Appends the lengths of an entry, at once where each has one byte; where memory runs out, some of them may stand
// there.
fn put_lengths(
    out: &mut Bytes,
    shared: usize,
    unshared: usize,
    value: usize,
) -> Result<(), AllocError>
    ensures ok { OnOk result (out.new ≡ out.old ++ (varint shared ++ varint unshared ++ varint value)) }
    ensures err { OnErr result (Appends out.old out.new) }
{
    if shared < 128 && unshared < 128 && value < 128 {
        return put_short_lengths(out, shared, unshared, value);
    }
    push_varint(out, shared as u64)?;
    push_varint(out, unshared as u64)?;
    push_varint(out, value as u64)
}

// Appends an entry; where memory runs out, some of it may stand there.
pub(crate) fn put_entry(
    out: &mut Bytes,
    shared: usize,
    key: &[u8],
    value: &[u8],
) -> Result<(), AllocError>
    requires { shared ≤ length key.now }
    ensures ok { OnOk result (out.new ≡ out.old ++ entry_bytes shared key.now value.now) }
    ensures err { OnErr result (Appends out.old out.new) }
{
    put_lengths(out, shared, key.len() - shared, value.len())?;
    out.extend_from_slice(&key[shared..])?;
    out.extend_from_slice(value)
}

// Appends an entry, or leaves the bytes as they were.
pub(crate) fn push_entry(
    out: &mut Bytes,
    shared: usize,
    key: &[u8],
    value: &[u8],
) -> Result<(), AllocError>
    requires { shared ≤ length key.now }
    ensures ok { OnOk result (out.new ≡ out.old ++ entry_bytes shared key.now value.now) }
    ensures err { OnErr result (out.new ≡ out.old) }
{
    let before = out.len();
    match put_entry(out, shared, key, value) {
        Ok(()) => Ok(()),
        Err(error) => {
            out.truncate(before);
            Err(error)
        }
    }
}

// How many bytes an entry has that shares so many with the key before.
pub(crate) fn entry_size(shared: usize, key: &[u8], value: &[u8]) -> usize
    requires shared { shared ≤ length key.now }
    requires key { length key.now ≤ INTERNAL_KEY_BYTES }
    requires value { length value.now ≤ VALUE_BYTES }
    ensures size { result ≡ length (entry_bytes shared key.now value.now) }
    ensures within { result ≤ INTERNAL_KEY_BYTES + VALUE_BYTES + 30 }
{
    let unshared = key.len() - shared;
    let lengths = varint_len(shared as u64)
        + varint_len(unshared as u64)
        + varint_len(value.len() as u64);
    lengths + unshared + value.len()
}
