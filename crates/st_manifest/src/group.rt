// A group of edits, laid into the payloads of records.
ghost use Rattle.std.specs.Prelude.{◌≡◌, ◌≤◌, ◌&&◌, IfOk, IsTrue, OnOk, length, map, nat_le, nat_lt};
ghost use Rattle.std.specs.List.{list_all};
ghost use Rattle.st_base.specs.Count.{greatest_count};
ghost use Rattle.manifest_edits.specs.Edits.{ends_with_last};
ghost use Rattle.manifest_edits.specs.Groups.{record_room};
ghost use Rattle.st_manifest.specs.Edit.{as_edit};
ghost use Rattle.st_manifest.specs.Laid.{IsGroupPayloads, bodies_laid, body_laid, edits_in, group_bodies, numbered_bodies};
ghost use Rattle.st_manifest.specs.Payload.{fit_edits, fits_edit};

use crate::edit::Edit;
use crate::judge::ends_with_last;
use crate::payload::{PAYLOAD_BYTES, edit_size, push_edit};
use st_base::{Bytes, GREATEST_NUMBER, LAST_FAMILY_ID, List, is_family};
use st_code::push_fixed32;
use std::alloc::{AllocError, Global};
use std::marker::Model;

// How many bytes a file may have.
const FILE_BYTES: u64 = u64::MAX;

/// A group of edits, as it is appended. Contracts see the payloads of its records.
#[derive(Drop)]
pub struct Group {
    payloads: List<Bytes>,
}

impl Model for Group {
    ghost use Rattle.std.specs.Prelude.{List, ℕ};
    ghost use Rattle.st_manifest.specs.Laid.{IsGroupPayloads};

    ghost Value = { List (List ℕ) };

    ghost view = { λ group. group.payloads };

    ghost invariant = { λ group. IsGroupPayloads group.payloads };
}

// Adds an edit to the body that is being filled, which is closed before it where it hasn't room.
fn lay_edit(
    alloc: Global,
    bodies: &mut List<Bytes>,
    body: Bytes,
    edit: &Edit,
) -> Result<Bytes, AllocError>
    requires { length body ≤ record_room }
    ensures bodies { OnOk result (bodies.new ≡ bodies_laid bodies.old body (as_edit edit.now)) }
    ensures body { IfOk result (λ filled. filled ≡ body_laid body (as_edit edit.now)) }
{
    let mut filled = body;
    if filled.len() + edit_size(edit) > PAYLOAD_BYTES - 4 {
        bodies.push(filled)?;
        filled = Bytes::new(alloc);
    }
    push_edit(&mut filled, edit)?;
    Ok(filled)
}

// The bytes of the edits in the order of their records, each record as full as whole edits allow.
fn lay(alloc: Global, edits: &[Edit]) -> Result<List<Bytes>, AllocError>
    requires some { 1 ≤ length edits.now }
    requires fits { IsTrue (fit_edits (map as_edit edits.now)) }
    ensures { IfOk result (λ bodies. bodies ≡ group_bodies (map as_edit edits.now)) }
{
    let mut bodies = List::new(alloc);
    let mut body = Bytes::new(alloc);
    for edit in edits {
        body = lay_edit(alloc, &mut bodies, body, edit)?;
    }
    bodies.push(body)?;
    Ok(bodies)
}

// The payloads of these bodies: each has how many follow it in front. There is no memory for 4,294,967,296.
fn count_down(alloc: Global, bodies: &[Bytes]) -> Result<List<Bytes>, AllocError>
    ensures payloads { IfOk result (λ payloads. payloads ≡ numbered_bodies bodies.now) }
    ensures few { IfOk result (λ payloads. length bodies.now ≤ 4294967295) }
{
    if bodies.len() > u32::MAX as usize {
        return Err(AllocError);
    }
    let mut payloads = List::new(alloc);
    let mut left = bodies.len() as u32;
    for body in bodies {
        left -= 1;
        let mut payload = Bytes::new(alloc);
        push_fixed32(&mut payload, left)?;
        payload.extend_from_slice(body.as_slice())?;
        payloads.push(payload)?;
    }
    Ok(payloads)
}

// Whether a record may add a table so.
fn fits_table(family: u32, level: u8, file: u64, length: u64, number: u64) -> bool
    ensures { result ≡ (nat_lt family LAST_FAMILY_ID && nat_le level 6 && nat_lt file greatest_count
        && nat_le length greatest_count && nat_le number GREATEST_NUMBER) }
{
    family < LAST_FAMILY_ID
        && level <= 6
        && file < u64::MAX
        && length <= FILE_BYTES
        && number <= GREATEST_NUMBER
}

// Whether a record may have this edit.
fn fits_edit(edit: &Edit) -> bool
    ensures { result ≡ fits_edit (as_edit edit.now) }
{
    match edit {
        Edit::AddFamily { id, name } => *id < LAST_FAMILY_ID && is_family(name.as_bytes()),
        Edit::DropFamily { id } => *id < LAST_FAMILY_ID,
        Edit::AddTable {
            family,
            level,
            file,
            length,
            number,
        } => fits_table(*family, *level, *file, *length, *number),
        Edit::DropTable { family, file } => *family < LAST_FAMILY_ID && *file < u64::MAX,
        Edit::Flushed { family, number } => {
            *family < LAST_FAMILY_ID && *number <= GREATEST_NUMBER
        }
        Edit::Last { number } => *number <= GREATEST_NUMBER,
        Edit::AddLog { file } => *file < u64::MAX,
        Edit::DropLog { file } => *file < u64::MAX,
    }
}

// Whether records may have all of these edits.
fn are_fit(edits: &[Edit]) -> bool
    ensures { result ≡ list_all (λ edit. fits_edit (as_edit edit)) edits.now }
{
    edits.iter().all(|edit| fits_edit(edit))
}

/// Whether these edits can be a group, as `Group::new` asks.
pub fn can_be_group(edits: &[Edit]) -> bool
    ensures { result ≡ (ends_with_last (map as_edit edits.now) && fit_edits (map as_edit edits.now)) }
{
    ends_with_last(edits) && are_fit(edits)
}

impl Group {
    /// The group of these edits. The last is `Last`, and no other is; levels are at most 6, sequence numbers at most
    /// 72,057,594,037,927,935, file numbers below 18,446,744,073,709,551,615, and families' ids below 4,294,967,295.
    /// `can_be_group` tests it.
    pub fn new(alloc: Global, edits: &[Edit]) -> Result<Group, AllocError>
        requires last { IsTrue (ends_with_last (map as_edit edits.now)) }
        requires fits { IsTrue (fit_edits (map as_edit edits.now)) }
        ensures { IfOk result (λ group. edits_in group ≡ map as_edit edits.now) }
    {
        let bodies = lay(alloc, edits)?;
        let payloads = count_down(alloc, bodies.as_slice())?;
        Ok(Group { payloads })
    }

    /// The payloads of the group's records, in order.
    pub fn payloads(&self) -> &[Bytes]
        ensures value { result.now ≡ self.now }
        ensures group { IsGroupPayloads self.now }
    {
        self.payloads.as_slice()
    }
}
