ghost use Rattle.std.specs.Prelude.{◌≡◌, ◌<◌, ◌≤◌, [], ◌∷◌, ◌++◌, length, IfOk, IfErr, OnOk, OnErr, IsErrOf, IsFalse, ◌↔◌};
ghost use Rattle.st_base.specs.Rows.{FitsMark, mark_of};
ghost use Rattle.st_base.specs.declared.entry.Mark.TheVariants.{Put, Gone};
ghost use Rattle.st_table.specs.Footer.{greatest_size};
ghost use Rattle.st_table.specs.IsTable.{IsTable};
ghost use Rattle.table_writer.specs.Written.{MayBeTable, written_table};
ghost use Rattle.st_table.specs.declared.kind.TableKind.TheVariants.{External};
ghost use Rattle.sst_writer.specs.Sst.{entry_with, rises_to};

use crate::fault::{FinishFault, WriterFault};
use st_base::{Bytes, EntryRef, KEY_BYTES, Key, MarkRef, Scratch, Value};
use st_table::TableKind;
use std::alloc::{AllocError, Global};
use std::marker::Model;
use table_writer::{TableWriter, written_table_opens};

/// A writer of one external table, seen as the list of its entries: those that were added, in order, all under the sequence
/// number 0.
#[derive(Drop)]
pub struct SstFileWriter {
    table: TableWriter,
    is_empty: bool,
    last: Scratch,
}

impl Model for SstFileWriter {
    ghost use Rattle.std.specs.Prelude.{List};
    ghost use Rattle.st_base.specs.declared.entry.Entry.{Entry};
    ghost use Rattle.sst_writer.specs.Sst.{IsSst, held};

    ghost Value = { List Entry };

    ghost view = { λ writer. held writer.table };

    ghost invariant = { λ writer. IsSst writer.table writer.is_empty writer.last };
}

impl SstFileWriter {
    /// A writer without entries.
    pub fn new(alloc: Global) -> Result<SstFileWriter, AllocError>
        ensures { IfOk result (λ writer. writer ≡ []) }
    {
        written_table_opens();
        let table = TableWriter::new(alloc, TableKind::External)?;
        let last = Scratch::new(alloc)?;
        Ok(SstFileWriter {
            table,
            is_empty: true,
            last,
        })
    }

    // Whether the key is greater than that of the last entry, if there is one.
    fn rises_to(&self, key: &[u8]) -> bool
        ensures { result ≡ rises_to self.now key.now }
    {
        self.is_empty || self.last.as_slice().cmp(key).is_lt()
    }

    /// Adds a key and its mark where they lie in memory: `put` of a value, `delete` of a tombstone. The key and the value are
    /// within their limits; the errors are those of `put`.
    pub fn add(&mut self, alloc: Global, key: &[u8], mark: MarkRef<'_>) -> Result<(), WriterFault>
        requires key { length key.now ≤ KEY_BYTES }
        requires mark { FitsMark (mark_of mark) }
        ensures ok { OnOk result (self.new ≡ self.old ++ entry_with key.now (mark_of mark.entry) ∷ []) }
        ensures fits { OnOk result (length (written_table External self.new) ≤ greatest_size External) }
        ensures not_rising { IsErrOf result WriterFault.NotRising ↔ IsFalse (rises_to self.old key.now) }
        ensures too_large { result ≡ Err WriterFault.TooLarge → greatest_size External
            < length (written_table External (self.old ++ entry_with key.now (mark_of mark.entry) ∷ [])) }
        ensures rows { MayBeTable External self.new }
        ensures err { OnErr result (self.new ≡ self.old) }
    {
        if !self.rises_to(key) {
            return Err(WriterFault::NotRising);
        }
        written_table_opens();
        let entry = EntryRef {
            key,
            number: 0,
            mark,
        };
        if let Err(fault) = self.table.add(alloc, entry) {
            return Err(fault.into());
        }
        self.last.keep_and_add(0, key);
        self.is_empty = false;
        Ok(())
    }

    /// Sets the key to the value in the table. The key is to be greater than the last one.
    ///
    /// `NotRising` comes exactly where the key isn't greater than the last one. `TooLarge` comes where it is, exactly where
    /// the finished table would have more than 67,108,864 bytes, unless memory runs out before. An error leaves the writer
    /// as it was. The work is that of the entry, and of its block where that is closed.
    pub fn put(&mut self, alloc: Global, key: &Key, value: &Value) -> Result<(), WriterFault>
        ensures ok { OnOk result (self.new ≡ self.old ++ entry_with key.now (Put value.now) ∷ []) }
        ensures fits { OnOk result (length (written_table External self.new) ≤ greatest_size External) }
        ensures not_rising { IsErrOf result WriterFault.NotRising ↔ IsFalse (rises_to self.old key.now) }
        ensures too_large { result ≡ Err WriterFault.TooLarge → greatest_size External
            < length (written_table External (self.old ++ entry_with key.now (Put value.now) ∷ [])) }
        ensures rows { MayBeTable External self.new }
        ensures err { OnErr result (self.new ≡ self.old) }
    {
        self.add(alloc, key.as_bytes(), MarkRef::Put(value.as_bytes()))
    }

    /// Puts a tombstone of the key into the table. The key is to be greater than the last one; the errors are those of `put`.
    pub fn delete(&mut self, alloc: Global, key: &Key) -> Result<(), WriterFault>
        ensures ok { OnOk result (self.new ≡ self.old ++ entry_with key.now Gone ∷ []) }
        ensures fits { OnOk result (length (written_table External self.new) ≤ greatest_size External) }
        ensures not_rising { IsErrOf result WriterFault.NotRising ↔ IsFalse (rises_to self.old key.now) }
        ensures too_large { result ≡ Err WriterFault.TooLarge
            → greatest_size External < length (written_table External (self.old ++ entry_with key.now Gone ∷ [])) }
        ensures rows { MayBeTable External self.new }
        ensures err { OnErr result (self.new ≡ self.old) }
    {
        self.add(alloc, key.as_bytes(), MarkRef::Gone)
    }

    /// The table of what was added, in at most 67,108,864 bytes. An error gives the writer back as it was: `NoEntry` comes
    /// exactly where nothing was added.
    pub fn finish(self, alloc: Global) -> Result<Bytes, (SstFileWriter, FinishFault)>
        ensures written { IfOk result (λ bytes. bytes ≡ written_table External self) }
        ensures table { IfOk result (λ bytes. IsTable bytes External self) }
        ensures some { IfOk result (λ bytes. ¬ (self ≡ [])) }
        ensures no_entry { IfErr result (λ refused. (refused.1 ≡ FinishFault.NoEntry) ↔ (self ≡ [])) }
        ensures unchanged { IfErr result (λ refused. refused.0 ≡ self) }
    {
        if self.is_empty {
            return Err((self, FinishFault::NoEntry));
        }
        match self.table.finish(alloc) {
            Ok(bytes) => Ok(bytes),
            Err(_error) => Err((self, FinishFault::OutOfMemory)),
        }
    }
}
