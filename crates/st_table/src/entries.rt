ghost use Rattle.std.specs.Prelude.{◌≡◌, ◌≤◌, length, Ok, IfErr, OnOk, option_map};
ghost use Rattle.st_base.specs.Rows.{AreRows, entry_of};
ghost use Rattle.st_table.specs.DataBlocks.{last_cell_key};
ghost use Rattle.st_table.specs.Entries.{entry_fault, is_behind, may_have, with_entries, with_cell_entry};
ghost use Rattle.st_table.specs.Steps.{Fails};

use crate::entry_arena::EntryArena;
use crate::fault::OpenTableFault;
use crate::find::is_before;
use crate::kind::TableKind;
use st_base::{EntryRef, INTERNAL_KEY_BYTES, Scratch, TableFault, VALUE_BYTES};
use st_block::{Block, entry_under, is_kind, unpacked, user_key};

// Whether an entry of this kind of table may have the sequence number.
fn may_have(kind: TableKind, number: u64) -> bool
    ensures { result ≡ may_have kind number }
{
    match kind {
        TableKind::External => number == 0,
        TableKind::Own => true,
    }
}

// Whether the key and the sequence number come after the entry before, if there is one.
fn is_behind(before: Option<EntryRef<'_>>, key: &[u8], number: u64) -> bool
    ensures { result ≡ is_behind (option_map entry_of before.entry) key.now number }
{
    match before {
        Some(entry) => is_before(entry, key, number),
        None => true,
    }
}

// The fault of the entry at an index of the table, after another.
fn entry_fault(
    kind: TableKind,
    index: u64,
    before: Option<EntryRef<'_>>,
    internal: &[u8],
    value: &[u8],
) -> Option<TableFault>
    ensures { result ≡ entry_fault kind index (option_map entry_of before.entry) internal.now value.now }
{
    let (number, entry_kind) = unpacked(internal);
    if !is_kind(entry_kind, value) {
        return Some(TableFault::Kind(index, entry_kind as u8));
    }
    if !may_have(kind, number) {
        return Some(TableFault::Number(index, number));
    }
    if value.len() > VALUE_BYTES {
        return Some(TableFault::TooLarge);
    }
    if !is_behind(before, user_key(internal), number) {
        return Some(TableFault::Order(index));
    }
    None
}

// Appends the entry that an internal key and a value are to those before, or finds its fault.
fn push_entry(
    kind: TableKind,
    entries: &mut EntryArena,
    internal: &[u8],
    value: &[u8],
) -> Result<(), OpenTableFault>
    requires { length internal.now ≤ INTERNAL_KEY_BYTES }
    ensures ok { OnOk result (with_cell_entry kind entries.old internal.now value.now ≡ Ok entries.new) }
    ensures rows { AreRows entries.old → OnOk result (AreRows entries.new) }
    ensures err { IfErr result (λ fault. Fails fault (with_cell_entry kind entries.old internal.now value.now)) }
{
    let index = entries.len() as u64;
    let before = entries.last();
    match entry_fault(kind, index, before, internal, value) {
        Some(fault) => Err(fault.into()),
        None => {
            entries.push(entry_under(internal, value))?;
            Ok(())
        }
    }
}

/// Appends the entries of a data block to those before, or finds their first fault. The last key stands in the scratch
/// then.
pub(crate) fn push_entries(
    kind: TableKind,
    entries: &mut EntryArena,
    block: &Block,
    scratch: &mut Scratch,
) -> Result<(), OpenTableFault>
    ensures ok { OnOk result (with_entries kind entries.old block.now.cells ≡ Ok entries.new) }
    ensures rows { AreRows entries.old → OnOk result (AreRows entries.new) }
    ensures last { OnOk result (scratch.new ≡ last_cell_key scratch.old block.now.cells) }
    ensures err { IfErr result (λ fault. Fails fault (with_entries kind entries.old block.now.cells)) }
{
    let mut at = block.start();
    while let Some(entry) = block.read(at, scratch) {
        push_entry(kind, entries, scratch.as_slice(), entry.value)?;
        at = entry.next;
    }
    Ok(())
}
