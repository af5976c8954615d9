// The payload of a manifest's record: edits of a group.
//
//   +---------------------+------+-----+------+
//   | records that follow | edit | ..  | edit |   at most 4,096 bytes
//   | fixed32             |      |     |      |
//   +---------------------+------+-----+------+
//
//   edit:          1 byte  and its fields
//   add family     1       fixed32 id, 1 byte length of the name, name
//   drop family    2       fixed32 id
//   add table      3       fixed32 family, 1 byte level, fixed64 file, fixed64 length, fixed64 number
//   drop table     4       fixed32 family, fixed64 file
//   flushed        5       fixed32 family, fixed64 number
//   last           6       fixed64 number
//   add log        7       fixed64 file
//   drop log       8       fixed64 file
ghost use Rattle.std.specs.Prelude.{◌≡◌, ◌+◌, ◌<◌, ◌≤◌, ◌++◌, ◌∷◌, [], length, slice_get, IfOk, IfSome, IsTrue, OnOk, OnSome};
ghost use Rattle.st_code.specs.Fixed.{fixed32, fixed64, fixed64_at};
ghost use Rattle.st_manifest.specs.Edit.{as_edit, shown_edit};
ghost use Rattle.st_manifest.specs.Payload.{edit_at, edit_of_kind, file_at, id_at, table_level_at, number_at, payload_read};
ghost use Rattle.st_manifest.specs.Payload.{with_name, with_one, with_place, with_two, written_edit};
ghost use Rattle.st_manifest.specs.Reads.{IsPayloadRead, IsReadUpTo};
ghost use Rattle.manifest_edits.specs.Edits.{AddLog, DropFamily, DropLog, DropTable, Flushed, Last};
ghost use Rattle.manifest_edits.specs.Groups.{edit_size};
ghost use Rattle.st_base.specs.Names.{is_family};

use crate::edit::Edit;
use st_base::{Bytes, Family, GREATEST_NUMBER, LAST_FAMILY_ID, List, MakeFault, is_family};
use st_code::{push_fixed32, push_fixed64, read_fixed32, read_fixed64};
use std::alloc::{AllocError, Global};

/// How many bytes a payload may have.
pub const PAYLOAD_BYTES: usize = 4_096;

// ---- written

// Appends the kind of an edit and a family.
fn push_family(out: &mut Bytes, kind: u8, family: u32) -> Result<(), AllocError>
    ensures { OnOk result (out.new ≡ out.old ++ kind ∷ fixed32 family) }
{
    out.push(kind)?;
    push_fixed32(out, family)
}

// Appends the kind of an edit and a number.
fn push_number(out: &mut Bytes, kind: u8, number: u64) -> Result<(), AllocError>
    ensures { OnOk result (out.new ≡ out.old ++ kind ∷ fixed64 number) }
{
    out.push(kind)?;
    push_fixed64(out, number)
}

// Appends the kind of an edit, a family and a number.
fn push_both(out: &mut Bytes, kind: u8, family: u32, number: u64) -> Result<(), AllocError>
    ensures { OnOk result (out.new ≡ out.old ++ kind ∷ (fixed32 family ++ fixed64 number)) }
{
    push_family(out, kind, family)?;
    push_fixed64(out, number)
}

// Appends the kind of an edit that adds a table, its family and its level.
fn push_place(out: &mut Bytes, family: u32, level: u8) -> Result<(), AllocError>
    ensures { OnOk result (out.new ≡ out.old ++ 3 ∷ (fixed32 family ++ level ∷ [])) }
{
    push_family(out, 3, family)?;
    out.push(level)
}

// Appends two numbers.
fn push_numbers(out: &mut Bytes, one: u64, two: u64) -> Result<(), AllocError>
    ensures { OnOk result (out.new ≡ out.old ++ (fixed64 one ++ fixed64 two)) }
{
    push_fixed64(out, one)?;
    push_fixed64(out, two)
}

// Appends an edit that adds a table.
fn push_table(
    out: &mut Bytes,
    family: u32,
    level: u8,
    file: u64,
    length: u64,
    number: u64,
) -> Result<(), AllocError>
    ensures { OnOk result (out.new ≡ out.old ++ 3 ∷ (fixed32 family ++ level ∷ (fixed64 file
        ++ (fixed64 length ++ fixed64 number)))) }
{
    push_place(out, family, level)?;
    push_fixed64(out, file)?;
    push_numbers(out, length, number)
}

// Appends an edit that adds a family.
fn push_name(out: &mut Bytes, id: u32, name: &Family) -> Result<(), AllocError>
    ensures { OnOk result (out.new ≡ out.old ++ 1 ∷ (fixed32 id ++ length name.now ∷ name.now)) }
{
    let bytes = name.as_bytes();
    push_family(out, 1, id)?;
    out.push(bytes.len() as u8)?;
    out.extend_from_slice(bytes)
}

/// Appends the bytes of an edit.
pub fn push_edit(out: &mut Bytes, edit: &Edit) -> Result<(), AllocError>
    ensures { OnOk result (out.new ≡ out.old ++ written_edit (as_edit edit.now)) }
{
    match edit {
        Edit::AddFamily { id, name } => push_name(out, *id, name),
        Edit::DropFamily { id } => push_family(out, 2, *id),
        Edit::AddTable {
            family,
            level,
            file,
            length,
            number,
        } => push_table(out, *family, *level, *file, *length, *number),
        Edit::DropTable { family, file } => push_both(out, 4, *family, *file),
        Edit::Flushed { family, number } => push_both(out, 5, *family, *number),
        Edit::Last { number } => push_number(out, 6, *number),
        Edit::AddLog { file } => push_number(out, 7, *file),
        Edit::DropLog { file } => push_number(out, 8, *file),
    }
}

/// How many bytes an edit has.
pub fn edit_size(edit: &Edit) -> usize
    ensures value { result ≡ edit_size (as_edit edit.now) }
    ensures short { result ≤ 70 }
{
    match edit {
        Edit::AddFamily { name, .. } => 6 + name.as_bytes().len(),
        Edit::DropFamily { .. } => 5,
        Edit::AddTable { .. } => 30,
        Edit::DropTable { .. } => 13,
        Edit::Flushed { .. } => 13,
        Edit::Last { .. } => 9,
        Edit::AddLog { .. } => 9,
        Edit::DropLog { .. } => 9,
    }
}

// ---- read

// The id of a family at the offset.
fn id_at(bytes: &[u8], at: usize) -> Option<u32>
    ensures value { result ≡ id_at bytes.now at }
    ensures room { OnSome result (at + 4 ≤ length bytes.now) }
{
    let id = read_fixed32(bytes, at)?;
    if id < LAST_FAMILY_ID { Some(id) } else { None }
}

// The level at the offset.
fn table_level_at(bytes: &[u8], at: usize) -> Option<u8>
    ensures { result ≡ table_level_at bytes.now at }
{
    let level = *bytes.get(at)?;
    if level <= 6 { Some(level) } else { None }
}

/// The number of a file at the offset: below 18,446,744,073,709,551,615.
pub fn file_at(bytes: &[u8], at: usize) -> Option<u64>
    ensures value { result ≡ file_at bytes.now at }
    ensures room { OnSome result (at + 8 ≤ length bytes.now) }
{
    let file = read_fixed64(bytes, at)?;
    if file < u64::MAX { Some(file) } else { None }
}

// The sequence number at the offset.
fn number_at(bytes: &[u8], at: usize) -> Option<u64>
    ensures value { result ≡ number_at bytes.now at }
    ensures room { OnSome result (at + 8 ≤ length bytes.now) }
{
    let number = read_fixed64(bytes, at)?;
    if number <= GREATEST_NUMBER {
        Some(number)
    } else {
        None
    }
}

// The family of this name.
fn family_of(alloc: Global, bytes: &[u8]) -> Result<Family, AllocError>
    requires { IsTrue (is_family bytes.now) }
    ensures { IfOk result (λ family. family ≡ bytes.now) }
{
    match Family::new(alloc, bytes) {
        Ok(family) => Ok(family),
        Err(MakeFault::OutOfMemory) => Err(AllocError),
        Err(MakeFault::Limit) => unreachable!(),
    }
}

// The edit at the offset, if its fields are whole: a family is added.
fn add_family_at(
    alloc: Global,
    bytes: &[u8],
    at: usize,
) -> Result<Option<(Edit, usize)>, AllocError>
    requires { at < length bytes.now }
    ensures value { IfOk result (λ found. shown_edit found
        ≡ with_name bytes.now (at + 6) (id_at bytes.now (at + 1)) (slice_get bytes.now (at + 5))) }
    ensures within { IfOk result (λ found. IfSome found (λ read. (at < read.1) × (read.1 ≤ length bytes.now))) }
{
    let Some(id) = id_at(bytes, at + 1) else {
        return Ok(None);
    };
    let Some(size) = bytes.get(at + 5) else {
        return Ok(None);
    };
    let from = at + 6;
    let end = from + *size as usize;
    if end > bytes.len() || !is_family(&bytes[from..end]) {
        return Ok(None);
    }
    let name = family_of(alloc, &bytes[from..end])?;
    Ok(Some((Edit::AddFamily { id, name }, end)))
}

// A family is dropped.
fn drop_family_at(bytes: &[u8], at: usize) -> Option<(Edit, usize)>
    requires { at < length bytes.now }
    ensures value { shown_edit result ≡ with_one DropFamily (id_at bytes.now (at + 1)) (at + 5) }
    ensures within { IfSome result (λ read. (at < read.1) × (read.1 ≤ length bytes.now)) }
{
    let id = id_at(bytes, at + 1)?;
    Some((Edit::DropFamily { id }, at + 5))
}

// A table is added.
fn add_table_at(bytes: &[u8], at: usize) -> Option<(Edit, usize)>
    requires { at < length bytes.now }
    ensures value { shown_edit result ≡ with_place (id_at bytes.now (at + 1)) (table_level_at bytes.now (at + 5))
        (file_at bytes.now (at + 6)) (fixed64_at bytes.now (at + 14)) (number_at bytes.now (at + 22)) (at + 30) }
    ensures within { IfSome result (λ read. (at < read.1) × (read.1 ≤ length bytes.now)) }
{
    let family = id_at(bytes, at + 1)?;
    let level = table_level_at(bytes, at + 5)?;
    let file = file_at(bytes, at + 6)?;
    let length = read_fixed64(bytes, at + 14)?;
    let number = number_at(bytes, at + 22)?;
    let edit = Edit::AddTable {
        family,
        level,
        file,
        length,
        number,
    };
    Some((edit, at + 30))
}

// A table is dropped.
fn drop_table_at(bytes: &[u8], at: usize) -> Option<(Edit, usize)>
    requires { at < length bytes.now }
    ensures value { shown_edit result
        ≡ with_two DropTable (id_at bytes.now (at + 1)) (file_at bytes.now (at + 5)) (at + 13) }
    ensures within { IfSome result (λ read. (at < read.1) × (read.1 ≤ length bytes.now)) }
{
    let family = id_at(bytes, at + 1)?;
    let file = file_at(bytes, at + 5)?;
    Some((Edit::DropTable { family, file }, at + 13))
}

// A family is flushed up to a number.
fn flushed_at(bytes: &[u8], at: usize) -> Option<(Edit, usize)>
    requires { at < length bytes.now }
    ensures value { shown_edit result
        ≡ with_two Flushed (id_at bytes.now (at + 1)) (number_at bytes.now (at + 5)) (at + 13) }
    ensures within { IfSome result (λ read. (at < read.1) × (read.1 ≤ length bytes.now)) }
{
    let family = id_at(bytes, at + 1)?;
    let number = number_at(bytes, at + 5)?;
    Some((Edit::Flushed { family, number }, at + 13))
}

// The last number.
fn last_at(bytes: &[u8], at: usize) -> Option<(Edit, usize)>
    requires { at < length bytes.now }
    ensures value { shown_edit result ≡ with_one Last (number_at bytes.now (at + 1)) (at + 9) }
    ensures within { IfSome result (λ read. (at < read.1) × (read.1 ≤ length bytes.now)) }
{
    let number = number_at(bytes, at + 1)?;
    Some((Edit::Last { number }, at + 9))
}

// A log is added.
fn add_log_at(bytes: &[u8], at: usize) -> Option<(Edit, usize)>
    requires { at < length bytes.now }
    ensures value { shown_edit result ≡ with_one AddLog (file_at bytes.now (at + 1)) (at + 9) }
    ensures within { IfSome result (λ read. (at < read.1) × (read.1 ≤ length bytes.now)) }
{
    let file = file_at(bytes, at + 1)?;
    Some((Edit::AddLog { file }, at + 9))
}

// A log is dropped.
fn drop_log_at(bytes: &[u8], at: usize) -> Option<(Edit, usize)>
    requires { at < length bytes.now }
    ensures value { shown_edit result ≡ with_one DropLog (file_at bytes.now (at + 1)) (at + 9) }
    ensures within { IfSome result (λ read. (at < read.1) × (read.1 ≤ length bytes.now)) }
{
    let file = file_at(bytes, at + 1)?;
    Some((Edit::DropLog { file }, at + 9))
}

// The edit of this kind at the offset.
fn edit_of_kind(
    alloc: Global,
    kind: u8,
    bytes: &[u8],
    at: usize,
) -> Result<Option<(Edit, usize)>, AllocError>
    requires { at < length bytes.now }
    ensures value { IfOk result (λ found. shown_edit found ≡ edit_of_kind kind bytes.now at) }
    ensures within { IfOk result (λ found. IfSome found (λ read. (at < read.1) × (read.1 ≤ length bytes.now))) }
{
    match kind {
        1 => add_family_at(alloc, bytes, at),
        2 => Ok(drop_family_at(bytes, at)),
        3 => Ok(add_table_at(bytes, at)),
        4 => Ok(drop_table_at(bytes, at)),
        5 => Ok(flushed_at(bytes, at)),
        6 => Ok(last_at(bytes, at)),
        7 => Ok(add_log_at(bytes, at)),
        8 => Ok(drop_log_at(bytes, at)),
        _ => Ok(None),
    }
}

// The edit at the offset, and the offset after it.
#[tactic(auto, unfolding(crate::specs::Payload::edit_at))]
fn edit_at(alloc: Global, bytes: &[u8], at: usize) -> Result<Option<(Edit, usize)>, AllocError>
    requires { at < length bytes.now }
    ensures value { IfOk result (λ found. shown_edit found ≡ edit_at bytes.now at) }
    ensures within { IfOk result (λ found. IfSome found (λ read. (at < read.1) × (read.1 ≤ length bytes.now))) }
{
    edit_of_kind(alloc, bytes[at], bytes, at)
}

// Appends the edits behind the first four bytes to those that were read before; no, where the payload hasn't whole
// edits up to its end.
fn read_edits(alloc: Global, out: &mut List<Edit>, payload: &[u8]) -> Result<bool, AllocError>
    requires { 4 ≤ length payload.now }
    ensures { IfOk result (λ read. IsReadUpTo read out.old out.new payload.now) }
{
    let mut at = 4;
    while at < payload.len() {
        let Some((edit, next)) = edit_at(alloc, payload, at)? else {
            return Ok(false);
        };
        out.push(edit)?;
        at = next;
    }
    Ok(true)
}

/// Appends the edits of a payload to those that were read before, and gives how many records of its group follow. None
/// exactly where the payload isn't of the kind.
#[tactic(auto, unfolding(crate::specs::Payload::payload_read))]
pub fn read_payload(
    alloc: Global,
    out: &mut List<Edit>,
    payload: &[u8],
) -> Result<Option<u32>, AllocError>
    ensures { IfOk result (λ read. IsPayloadRead read out.old out.new (payload_read payload.now)) }
{
    let Some(left) = read_fixed32(payload, 0) else {
        return Ok(None);
    };
    if payload.len() > PAYLOAD_BYTES {
        return Ok(None);
    }
    if read_edits(alloc, out, payload)? {
        return Ok(Some(left));
    }
    Ok(None)
}
