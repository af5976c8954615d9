ghost use Rattle.std.specs.Prelude.{◌≡◌, ◌⊎◌, ◌<◌, List, Ok, IfOk, IfErr, IsTrue, option_map};
ghost use Rattle.st_base.specs.Range.{keys_rise};
ghost use Rattle.st_base.specs.Rows.{AreRows, mark_of, newest};
ghost use Rattle.st_base.specs.declared.entry.Entry.{Entry};
ghost use Rattle.st_table.specs.Handle.{LiesInFile};
ghost use Rattle.st_table.specs.Steps.{Fails};
ghost use Rattle.st_table.specs.IsTable.{IsTable};
ghost use Rattle.st_table.specs.Table.{IsFirstFault, acting, properties_of, table_of};

use crate::data_blocks::data_of;
use crate::entry_arena::EntryArena;
use crate::fault::OpenTableFault;
use crate::find::{lower_in, newest_in};
use crate::footer::footer_of;
use crate::handle::Handle;
use crate::kind::TableKind;
use crate::metaindex::properties_handle;
use crate::properties::properties_fault;
use crate::shared_entries::SharedEntries;
use crate::stored::block_at;
use st_base::{Bytes, EntryRef, MarkRef, Renumber, Rows, Scratch};
use st_block::{Block, BlockKind};
use std::alloc::{AllocError, Global};
use std::marker::Model;
use std::sync::Arc;

// The properties block, by the metaindex block of this handle, or the first fault of these two.
#[tactic(auto, unfolding(crate::specs::Table::properties_of))]
fn properties_of(
    bytes: &Arc<Bytes>,
    at: Handle,
    scratch: &mut Scratch,
) -> Result<Block, OpenTableFault>
    requires { LiesInFile bytes.now.value at }
    ensures ok { IfOk result (λ block. properties_of bytes.now.value at ≡ Ok block) }
    ensures err { IfErr result (λ fault. Fails fault (properties_of bytes.now.value at)) }
{
    let metaindex = block_at(bytes, at, BlockKind::Plain, scratch)?;
    let handle = properties_handle(bytes.as_slice(), at.offset, &metaindex, scratch)?;
    block_at(bytes, handle, BlockKind::Plain, scratch)
}

// The entries of a table of this kind, or its first fault.
#[tactic(auto, unfolding(crate::specs::Table::table_of))]
fn table_of(
    alloc: Global,
    bytes: &Arc<Bytes>,
    kind: TableKind,
) -> Result<EntryArena, OpenTableFault>
    ensures ok { IfOk result (λ entries. table_of kind bytes.now.value ≡ Ok entries) }
    ensures rows { IfOk result AreRows }
    ensures err { IfErr result (λ fault. Fails fault (table_of kind bytes.now.value)) }
{
    let footer = footer_of(bytes.as_slice(), kind)?;
    let mut scratch = Scratch::new(alloc)?;
    let properties = properties_of(bytes, footer.metaindex, &mut scratch)?;
    if let Some(fault) = properties_fault(kind, &properties, &mut scratch) {
        return Err(fault.into());
    }
    let index = block_at(bytes, footer.index, BlockKind::Index, &mut scratch)?;
    data_of(alloc, bytes, kind, footer.index.offset, &index)
}

/// An opened table, seen as the list of its entries. It keeps them decoded, so a look-up reads no block; an entry takes 40
/// bytes beside its key and its value. Tables under other numbers share them (`with_number`).
#[derive(Drop)]
pub struct Table {
    entries: SharedEntries,
}

impl Model for Table {
    ghost use Rattle.std.specs.Prelude.{List};
    ghost use Rattle.st_base.specs.Rows.{AreRows};
    ghost use Rattle.st_base.specs.declared.entry.Entry.{Entry};

    ghost Value = { List Entry };

    ghost view = { λ table. table.entries };

    ghost invariant = { λ table. AreRows table.entries };
}

impl Table {
    /// The table of this kind that the bytes are. Its entries act under the number, or under their own where that is 0.
    ///
    /// `Bad` comes exactly where the bytes are no table of the kind, with their first fault in reading order. The work is
    /// linear in the bytes and the keys' lengths. The decoded keys are whole, so that those of a table that shares much
    /// between keys take more room than its bytes.
    pub fn open(
        alloc: Global,
        bytes: Arc<Bytes>,
        kind: TableKind,
        number: u64,
    ) -> Result<Table, OpenTableFault>
        requires { (number ≡ 0)
            ⊎ ((entries : List Entry) → IsTable bytes.value kind entries → IsTrue (keys_rise entries)) }
        ensures ok { IfOk result
            (λ table. ((entries : List Entry) × IsTable bytes.value kind entries × (table ≡ acting number entries))) }
        ensures bad { IfErr result (IsFirstFault bytes.value kind) }
    {
        let arena = table_of(alloc, &bytes, kind)?;
        let entries = SharedEntries::new(alloc, arena, number)?;
        Ok(Table { entries })
    }

    /// The number and the mark of the first entry of the key at or below the number: None exactly where there is none. It
    /// searches the entries by halves.
    pub fn find<'a>(
        &'a self,
        key: &[u8],
        number: u64,
        _scratch: &mut Scratch,
    ) -> Option<(u64, MarkRef<'a>)>
        ensures { option_map (λ found. (found.0, mark_of found.1)) result ≡ newest self.now key.now number }
    {
        newest_in(&self.entries, key, number)
    }
}

impl Rows for Table {
    ghost rows = { λ table. table };

    fn len(&self) -> usize {
        self.entries.len()
    }

    fn at<'a>(&'a self, index: usize, _scratch: &'a mut Scratch) -> EntryRef<'a> {
        self.entries.entry(index)
    }

    fn lower(&self, key: &[u8], number: u64, _scratch: &mut Scratch) -> usize {
        lower_in(&self.entries, key, number)
    }

    fn first(&self) -> Option<&[u8]> {
        let entry = self.entries.get(0)?;
        Some(entry.key)
    }

    fn last(&self) -> Option<&[u8]> {
        let entry = self.entries.last()?;
        Some(entry.key)
    }

    fn newest<'a>(
        &'a self,
        key: &[u8],
        number: u64,
        _scratch: &mut Scratch,
    ) -> Option<(u64, MarkRef<'a>)> {
        newest_in(&self.entries, key, number)
    }
}

/// The table under the number shares its entries with this one, and copies none; their charge is told without a look at them.
impl Renumber for Table {
    fn with_number(&self, _alloc: Global, number: u64) -> Result<Table, AllocError> {
        let entries = self.entries.with_number(number)?;
        Ok(Table { entries })
    }

    fn charge(&self) -> u64 {
        self.entries.charge()
    }
}
