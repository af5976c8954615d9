//! An internal key is what an entry of a table has for a key in its block:
//!
//! ```text
//! key      the entry's key
//! packed   fixed64: the sequence number times 256, plus the kind, which is 0 for a tombstone and 1 for a value
//! ```
//!
//! Internal keys rise by key, as byte strings, and at one key by the packed number downwards. So the newest entry of a key
//! comes first.
ghost use Rattle.std.specs.Prelude.{◌≡◌, ◌-◌, ◌<◌, ◌^◌, length, IfOk};
ghost use Rattle.st_base.specs.Rows.{entry_of, mark_of};
ghost use Rattle.st_block.specs.InternalKey.{entry_under, internal_cmp, internal_key, is_key_before, is_kind, kind_of, kind_under, mark_under, number_of, packed, user_key, value_under};

use crate::keys::word_at;
use st_base::{Bytes, EntryRef, MarkRef};
use st_code::{push_fixed64, read_fixed64};
use std::alloc::AllocError;
use std::cmp::Ordering;

/// How many bytes an internal key has after its key.
pub const PACKED_BYTES: usize = 8;

/// How many kinds there may be: by so much a sequence number is multiplied before the kind is added.
pub const KINDS: u64 = 256;

/// The kind of a tombstone.
pub const TOMBSTONE_KIND: u64 = 0;

/// The kind of a value.
pub const VALUE_KIND: u64 = 1;

/// The key of an internal key.
pub fn user_key(internal: &[u8]) -> &[u8]
    ensures { result.now ≡ user_key internal.now }
{
    &internal[..internal.len().saturating_sub(PACKED_BYTES)]
}

// The packed number that stands in fewer than 8 bytes.
fn packed_short(internal: &[u8]) -> u64
    requires { length internal.now < PACKED_BYTES }
    ensures { result ≡ packed internal.now }
{
    word_at(internal, 0, internal, 0)
}

/// The number of an internal key: its sequence number times 256, plus its kind.
pub fn packed(internal: &[u8]) -> u64
    ensures { result ≡ packed internal.now }
{
    let from = internal.len().saturating_sub(PACKED_BYTES);
    match read_fixed64(internal, from) {
        Some(number) => number,
        None => packed_short(internal),
    }
}

/// The sequence number and the kind of an internal key.
pub fn unpacked(internal: &[u8]) -> (u64, u64)
    ensures number { result.0 ≡ number_of internal.now }
    ensures kind { result.1 ≡ kind_of internal.now }
{
    let packed = packed(internal);
    (packed / KINDS, packed % KINDS)
}

/// How two internal keys compare: by key upwards, and at one key by the packed number downwards.
pub fn internal_cmp(one: &[u8], other: &[u8]) -> Ordering
    ensures { result ≡ internal_cmp one.now other.now }
{
    user_key(one)
        .cmp(user_key(other))
        .then(packed(other).cmp(&packed(one)))
}

// Whether the internal key comes before the key and the number.
pub(crate) fn is_key_before(internal: &[u8], key: &[u8], number: u64) -> bool
    ensures { result ≡ is_key_before key.now number internal.now }
{
    match user_key(internal).cmp(key) {
        Ordering::Less => true,
        Ordering::Equal => number < packed(internal) / KINDS,
        Ordering::Greater => false,
    }
}

/// Whether an entry may have this kind with this value: it is a value, or a tombstone, whose value is empty.
pub fn is_kind(kind: u64, value: &[u8]) -> bool
    ensures { result ≡ is_kind kind value.now }
{
    kind == VALUE_KIND || kind == TOMBSTONE_KIND && value.len() == 0
}

// The mark of an entry of this kind.
fn mark_under(kind: u64, value: &[u8]) -> MarkRef<'_>
    ensures { mark_of result ≡ mark_under kind value.now }
{
    if kind == TOMBSTONE_KIND {
        MarkRef::Gone
    } else {
        MarkRef::Put(value)
    }
}

/// The entry that an internal key and a value are.
pub fn entry_under<'a>(internal: &'a [u8], value: &'a [u8]) -> EntryRef<'a>
    ensures { entry_of result ≡ entry_under internal.now value.now }
{
    let (number, kind) = unpacked(internal);
    EntryRef {
        key: user_key(internal),
        number,
        mark: mark_under(kind, value),
    }
}

// The kind of an entry with this mark.
fn kind_under(mark: MarkRef<'_>) -> u64
    ensures { result ≡ kind_under (mark_of mark.entry) }
{
    match mark {
        MarkRef::Put(_value) => VALUE_KIND,
        MarkRef::Gone => TOMBSTONE_KIND,
    }
}

/// The value that an entry with this mark has in its block.
pub fn value_under(mark: MarkRef<'_>) -> &[u8]
    ensures { result.now ≡ value_under (mark_of mark.entry) }
{
    match mark {
        MarkRef::Put(value) => value,
        MarkRef::Gone => &[],
    }
}

/// The internal key of the entry, in the room of these bytes.
pub fn internal_key_in(room: Bytes, entry: EntryRef<'_>) -> Result<Bytes, AllocError>
    requires { entry.number < 2 ^ 56 }
    ensures { IfOk result (λ bytes. bytes ≡ internal_key (entry_of entry.entry)) }
{
    let mut bytes = room;
    bytes.truncate(0);
    bytes.extend_from_slice(entry.key)?;
    push_fixed64(&mut bytes, entry.number * KINDS + kind_under(entry.mark))?;
    Ok(bytes)
}
