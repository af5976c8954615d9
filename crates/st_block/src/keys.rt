ghost use Rattle.std.specs.Prelude.{◌≡◌, ◌+◌, ◌-◌, ◌<◌, ◌≤◌, ◌++◌, drop, length, take, slice_index, IsTrue, List, ℕ};
ghost use Rattle.std.specs.Int.{w64, from_le_bytes};
ghost use Rattle.std.specs.Ordering.{is_lt};
ghost use Rattle.st_base.specs.Bytes.{bytes_cmp};
ghost use Rattle.st_block.specs.Block.{is_after, is_long_enough};
ghost use Rattle.st_block.specs.InternalKey.{internal_cmp};

use crate::internal_key::{PACKED_BYTES, packed};
use crate::kind::BlockKind;
use st_base::INTERNAL_KEY_BYTES;
use std::cmp::Ordering;

// The byte at the index of a key that shares its front with the key before: 0 past its end.
fn byte_at(before: &[u8], shared: usize, others: &[u8], index: usize) -> u8
    requires { shared ≤ length before.now }
    ensures { result ≡ slice_index (take shared before.now ++ others.now) index }
{
    if index < shared {
        return before[index];
    }
    let behind = index - shared;
    if behind < others.len() {
        others[behind]
    } else {
        0
    }
}

// How the front of the key before compares with a front of the key that shares some of it.
fn cmp_fronts(
    before: &[u8],
    front: usize,
    shared: usize,
    others: &[u8],
    new_front: usize,
) -> Ordering
    requires old { front ≤ length before.now }
    requires shared { shared ≤ length before.now }
    requires new { new_front ≤ shared + length others.now }
    ensures { result ≡ bytes_cmp (take front before.now) (take new_front (take shared before.now ++ others.now)) }
{
    let shorter = front.min(new_front);
    for index in 0..shorter {
        let new = byte_at(before, shared, others, index);
        let old = before[index];
        if old != new {
            return old.cmp(&new);
        }
    }
    front.cmp(&new_front)
}

// The fixed64 at the offset in a key that shares its front with the key before. Bytes past its end count as 0.
pub(crate) fn word_at(before: &[u8], shared: usize, others: &[u8], offset: usize) -> u64
    requires shared { shared ≤ length before.now }
    requires room { offset ≤ INTERNAL_KEY_BYTES }
    ensures { result ≡ from_le_bytes w64 (drop offset (take shared before.now ++ others.now)) }
{
    u64::from_le_bytes([
        byte_at(before, shared, others, offset),
        byte_at(before, shared, others, offset + 1),
        byte_at(before, shared, others, offset + 2),
        byte_at(before, shared, others, offset + 3),
        byte_at(before, shared, others, offset + 4),
        byte_at(before, shared, others, offset + 5),
        byte_at(before, shared, others, offset + 6),
        byte_at(before, shared, others, offset + 7),
    ])
}

// Whether the new internal key comes after the key before.
fn is_internal_after(before: &[u8], shared: usize, others: &[u8]) -> bool
    requires shared { shared ≤ length before.now }
    requires old { PACKED_BYTES ≤ length before.now }
    requires long { PACKED_BYTES ≤ shared + length others.now }
    requires room { shared + length others.now ≤ INTERNAL_KEY_BYTES }
    ensures { result ≡ is_lt (internal_cmp before.now (take shared before.now ++ others.now)) }
{
    let new_front = shared + others.len() - PACKED_BYTES;
    match cmp_fronts(
        before,
        before.len() - PACKED_BYTES,
        shared,
        others,
        new_front,
    ) {
        Ordering::Less => true,
        Ordering::Equal => word_at(before, shared, others, new_front) < packed(before),
        Ordering::Greater => false,
    }
}

/// Whether a key of so many bytes is long enough for its kind of block.
pub(crate) fn is_long(kind: BlockKind, bytes: usize) -> bool
    ensures { (key : List ℕ) → length key ≡ bytes → result ≡ is_long_enough kind key }
{
    match kind {
        BlockKind::Data | BlockKind::Index => PACKED_BYTES <= bytes,
        BlockKind::Plain => true,
    }
}

/// Whether the key that shares its front with the key before comes after it, in its kind of block.
pub(crate) fn is_after(kind: BlockKind, before: &[u8], shared: usize, others: &[u8]) -> bool
    requires shared { shared ≤ length before.now }
    requires old { IsTrue (is_long_enough kind before.now) }
    requires new { IsTrue (is_long_enough kind (take shared before.now ++ others.now)) }
    requires room { shared + length others.now ≤ INTERNAL_KEY_BYTES }
    ensures { result ≡ is_after kind before.now (take shared before.now ++ others.now) }
{
    match kind {
        BlockKind::Data => true,
        BlockKind::Index => is_internal_after(before, shared, others),
        BlockKind::Plain => {
            let new_front = shared + others.len();
            cmp_fronts(before, before.len(), shared, others, new_front).is_lt()
        }
    }
}
